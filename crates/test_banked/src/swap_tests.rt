//! Swap of two harts over banks, one after the other: the example of `docs/BANKS.md`.
use crate::checked::{Merged, machine_after, run_merged};
use crate::merging::{Lack, banks_of, merged_with};
use bank_hart_log::HartLog;
use bank_laws::LoggedAccess;
use bank_memory::Bank;
use bank_merge::MergeFault;
use hart_step::{Hart, HartState};
use image::Image;
use machine::{Choice, Inputs};
use object_library::Kind;
use sched_text::print_runs;
use std::alloc::{AllocError, Allocator};
use std::sync::Wait;
use std::thread::Threads;
use test_images::{Holding, Program, plan_of, program_image};
use thread_gate::Plan;

const WORDS: [u32; 2] = [7, 9];

const BUDGET: u32 = 100;

// A segment for comparison: its stamp, its local steps, and the bank of its last step's word.
type Step = (u64, u32, Option<u32>);

// What each hart does.
#[rattlefmt::skip]
const STEPS: [&[Step]; 2] = [
    &[(1, 3, Some(1)), (3, 1, Some(0)), (4, 4, Some(2)), (5, 3, None)],
    &[(1, 3, Some(2)), (2, 1, Some(0)), (3, 4, None)],
];

// The choices of these steps.
const CHOICES: &str = "0*4 1*6 0*2 1*5 0*9\n";

// Runs hart 1 up to its last step, which touches nothing, and then hart 0.
fn run_swap<'a, A: Allocator + Copy + Send + Sync, R: Threads + Wait + Sync>(
    rt: &R,
    alloc: A,
    image: &'a Image<A>,
    inputs: &'a Inputs,
    plan: &'a Plan<A>,
) -> Result<Merged<'a, A>, Lack> {
    let gate = Holding::new(0, 3);
    run_merged(rt, alloc, image, inputs, BUDGET, plan, &gate)
}

fn has_steps<A: Allocator>(log: &HartLog<A>, steps: &[Step]) -> bool {
    if log.segments().len() != steps.len() {
        return false;
    }
    for (segment, wanted) in log.segments().iter().zip(steps) {
        let bank = segment.data_access.map(|access| access.word / 4 % 16);
        if (segment.stamp, segment.local, bank) != *wanted {
            return false;
        }
    }
    true
}

fn have_steps<A: Allocator>(logs: &[HartLog<A>]) -> bool {
    if logs.len() != STEPS.len() {
        return false;
    }
    for (log, steps) in logs.iter().zip(STEPS) {
        if !has_steps(log, steps) {
            return false;
        }
    }
    true
}

// Whether choices are those of the text.
fn are_choices<A: Allocator + Copy>(alloc: A, choices: &[Choice]) -> Result<bool, AllocError> {
    let text = print_runs(alloc, choices)?;
    Ok(text.as_str() == CHOICES)
}

// Whether a hart has exited with the value of hart 1, and has that hart's number in a1.
fn has_ended(hart: &Hart) -> bool {
    hart.state == HartState::Exited(9) && hart.registers[11] == 1
}

// The difference of the run from the page, if any.
fn found_wrong<A: Allocator + Copy + Send + Sync, R: Threads + Wait + Sync>(
    rt: &R,
    alloc: A,
) -> Result<(), Lack> {
    let program = Program::Object(Kind::Swap);
    let (Ok(image), Ok(plan)) = (program_image(alloc, program), plan_of(alloc, &[])) else {
        return Err(Lack::Memory);
    };
    let inputs = Inputs::new(&WORDS)?;
    let Merged { banked, choices } = run_swap(rt, alloc, &image, &inputs, &plan)?;
    if !have_steps(&banked.logs) {
        return Err(Lack::Words);
    }
    if are_choices(alloc, &choices) != Ok(true) {
        return Err(Lack::Again);
    }
    let machine = machine_after(alloc, &image, &inputs, &choices)?;
    if machine.ends().len() == 2 && machine.ends().iter().all(has_ended) {
        Ok(())
    } else {
        Err(Lack::Ends)
    }
}

#[test]
fn one_hart_after_the_other(rt: HostRuntime) {
    assert!(rt; found_wrong(&rt, rt.alloc()) == Ok(()));
}

// The accesses of banks, without the last ones of bank 0.
fn accesses_without<A: Allocator + Copy>(
    alloc: A,
    banks: &[Bank<A>],
    dropped: usize,
) -> Option<Vec<LoggedAccess, A>> {
    let mut accesses = Vec::new(alloc);
    for bank in banks {
        let log = bank.log();
        let count = if bank.number() == 0 {
            log.len().saturating_sub(dropped)
        } else {
            log.len()
        };
        accesses.extend_from_slice(&log[..count]).ok()?;
    }
    Some(accesses)
}

// Number of choices of the merged run, without the last accesses of bank 0.
fn merged_without<A: Allocator + Copy + Send + Sync, R: Threads + Wait + Sync>(
    rt: &R,
    alloc: A,
    dropped: usize,
) -> Result<usize, Lack> {
    let program = Program::Object(Kind::Swap);
    let (Ok(image), Ok(plan)) = (program_image(alloc, program), plan_of(alloc, &[])) else {
        return Err(Lack::Memory);
    };
    let inputs = Inputs::new(&WORDS)?;
    let Merged { banked, .. } = run_swap(rt, alloc, &image, &inputs, &plan)?;
    let Some(accesses) = accesses_without(alloc, &banked.banks, dropped) else {
        return Err(Lack::Memory);
    };
    let banks = banks_of(alloc, &image, &WORDS, &accesses)?;
    let choices = merged_with(alloc, &image, &WORDS, BUDGET, &plan, &banked.logs, &banks)?;
    Ok(choices.len())
}

#[test]
fn each_access_of_a_bank_is_wanted(rt: HostRuntime) {
    let unmatched = Err(Lack::Merged(MergeFault::Unmatched));
    for (dropped, wanted) in [(0, Ok(26)), (1, unmatched), (2, unmatched)] {
        let merged = merged_without(&rt, rt.alloc(), dropped);
        assert!(rt; merged == wanted, "without {dropped}");
    }
}
