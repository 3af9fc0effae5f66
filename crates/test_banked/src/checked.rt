//! Runs over banks that are merged, and replayed choice by choice.
use crate::joined_reservations::joined;
use crate::merging::{Lack, merged_with};
use bank_hart_log::HartLog;
use bank_laws::LoggedAccess;
use bank_memory::Bank;
use bank_threads::{Banked, run_banked};
use hart_reservations::Reserve;
use hart_step::{Hart, HartState};
use image::Image;
use machine::{Choice, Inputs, Machine};
use mem_flat::FlatStore;
use mem_store::Store;
use std::alloc::Allocator;
use std::sync::Wait;
use std::thread::Threads;
use test_images::{Program, plan_of, program_image};
use thread_gate::{Gate, Plan};

/// A run over banks, and its choices.
#[derive(Drop)]
pub struct Merged<'a, A: Allocator> {
    /// The logs of harts and banks.
    pub banked: Banked<'a, A>,
    /// The choices.
    pub choices: Vec<Choice, A>,
}

/// Runs a program with a hart for each input, and merges the logs.
pub fn run_merged<'a, A: Allocator + Copy + Send + Sync, G: Gate + Sync, R: Threads + Wait + Sync>(
    rt: &R,
    alloc: A,
    image: &'a Image<A>,
    inputs: &'a Inputs,
    budget: u32,
    plan: &'a Plan<A>,
    gate: &G,
) -> Result<Merged<'a, A>, Lack> {
    let banked = run_banked(rt, alloc, image, inputs, budget, plan, gate)?;
    let choices = merged_with(
        alloc,
        image,
        inputs.words(),
        budget,
        plan,
        &banked.logs,
        &banked.banks,
    )?;
    Ok(Merged { banked, choices })
}

/// The machine after choices.
pub fn machine_after<A: Allocator + Copy>(
    alloc: A,
    image: &Image<A>,
    inputs: &Inputs,
    choices: &[Choice],
) -> Result<Machine<FlatStore<A>, A>, Lack> {
    let Ok(machine) = Machine::start(alloc, image, inputs) else {
        return Err(Lack::Memory);
    };
    let mut machine: Machine<FlatStore<A>, A> = machine;
    for choice in choices {
        if choice.hart as usize >= machine.harts() || machine.step(*choice).is_err() {
            return Err(Lack::Again);
        }
    }
    Ok(machine)
}

// Whether harts are those at the end of logs.
fn are_ends<A: Allocator>(harts: &[Hart], logs: &[HartLog<A>]) -> bool {
    if harts.len() != logs.len() {
        return false;
    }
    for (hart, log) in harts.iter().zip(logs) {
        if *hart != *log.slot() {
            return false;
        }
    }
    true
}

// The reservations by the logs of harts and banks.
fn reservations_of<A: Allocator + Copy>(alloc: A, banked: &Banked<A>) -> Result<Reserve, Lack> {
    let mut marks = Vec::new(alloc);
    for bank in &banked.banks {
        if marks.push(bank.marks()).is_err() {
            return Err(Lack::Memory);
        }
    }
    let mut named = Vec::new(alloc);
    for log in &banked.logs {
        if named.push(log.named()).is_err() {
            return Err(Lack::Memory);
        }
    }
    if marks.len() != 16 || named.len() > 32 {
        return Err(Lack::Words);
    }
    Ok(joined(&marks, &named))
}

// Whether a machine has, at the word of an access, the bank's bytes, and the hart's reservation if
// it has one there.
fn has_word<A: Allocator>(
    machine: &Machine<FlatStore<A>, A>,
    reserved: &Reserve,
    bank: &Bank<A>,
    access: &LoggedAccess,
) -> bool {
    let word = access.word;
    let hart = access.hart as usize;
    if word % 4 != 0 || hart >= 32 {
        return false;
    }
    machine.store().load32(word).ok() == Some(u32::from_le_bytes(bank.bytes(word)))
        && machine.reserve().holds(hart, word) == reserved.holds(hart, word)
}

// Whether it has them at all words that were accessed.
fn has_words<A: Allocator>(
    machine: &Machine<FlatStore<A>, A>,
    reserved: &Reserve,
    banks: &[Bank<A>],
) -> bool {
    for bank in banks {
        for access in bank.log() {
            if !has_word(machine, reserved, bank, access) {
                return false;
            }
        }
    }
    true
}

/// Merged choices, and the harts at the end of their run.
#[derive(Drop)]
pub struct Done<A: Allocator> {
    /// The choices.
    pub choices: Vec<Choice, A>,
    /// The harts.
    pub harts: Vec<Hart, A>,
}

/// Runs a program, merges its logs, replays the choices and checks that they end as the logs do.
pub fn checked<A: Allocator + Copy + Send + Sync, G: Gate + Sync, R: Threads + Wait + Sync>(
    rt: &R,
    alloc: A,
    program: Program,
    inputs: &[u32],
    budget: u32,
    pairs: &[(u32, u32)],
    gate: &G,
) -> Result<Done<A>, Lack> {
    let (Ok(image), Ok(plan)) = (program_image(alloc, program), plan_of(alloc, pairs)) else {
        return Err(Lack::Memory);
    };
    let inputs = Inputs::new(inputs)?;
    let Merged { banked, choices } = run_merged(rt, alloc, &image, &inputs, budget, &plan, gate)?;
    let machine = machine_after(alloc, &image, &inputs, &choices)?;
    if !are_ends(machine.ends(), &banked.logs) {
        return Err(Lack::Ends);
    }
    let reserved = reservations_of(alloc, &banked)?;
    if !has_words(&machine, &reserved, &banked.banks) {
        return Err(Lack::Words);
    }
    let Ok(harts) = Vec::from_slice(alloc, machine.ends()) else {
        return Err(Lack::Memory);
    };
    Ok(Done { choices, harts })
}
