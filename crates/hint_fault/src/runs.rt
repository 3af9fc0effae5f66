//! Runs a program again to explain how it ends.

use crate::harts::{EndsTold, harts_advice};
use crate::rules::{Judged, push_broken};
use elf_read::{Symbol, symbols};
use hart_step::HartState;
use image::Image;
use machine::{Choice, Inputs, Machine};
use mem_flat::FlatStore;
use object_library::Kind;
use program_open::{ProgramForm, read_program};
use sched_run::{Chosen, run_choices};
use std::alloc::Allocator;

/// The symbols of a file; none if it has no valid table, or out of memory.
pub fn symbols_or_none<A: Allocator + Copy>(alloc: A, file: &[u8]) -> Vec<Symbol<A>, A> {
    match symbols(alloc, file) {
        Ok(symbols) => symbols,
        Err(_) => Vec::new(alloc),
    }
}

/// What is explained of the end of a run.
#[derive(Clone, Copy)]
pub struct Explained {
    /// Which ends of harts.
    pub ends: EndsTold,
    /// The object whose rule is judged; `None` if none is.
    pub rule: Option<Kind>,
}

// A program, its machine after a run, and which harts were chosen.
#[derive(Drop)]
struct Ran<A: Allocator> {
    image: Image<A>,
    machine: Machine<FlatStore<A>, A>,
    chosen: Chosen,
}

// A program's run under a choice text. `None` if there is no such run, or out of memory.
fn run_again<A: Allocator + Copy>(
    alloc: A,
    form: ProgramForm,
    program: &[u8],
    inputs: &[u32],
    choices: &[u8],
) -> Option<Ran<A>> {
    let image: Image<A> = read_program(alloc, form, program).ok()?;
    let inputs = Inputs::new(inputs).ok()?;
    let mut machine: Machine<FlatStore<A>, A> = Machine::start(alloc, &image, &inputs).ok()?;
    match run_choices(&mut machine, choices, inputs.harts()) {
        Ok(chosen) => Some(Ran {
            image,
            machine,
            chosen,
        }),
        Err(_) => None,
    }
}

/// A run that has ended.
#[derive(Drop)]
pub struct Ended<'a, A: Allocator> {
    /// The program.
    pub image: &'a Image<A>,
    /// The bytes of its file, which has its symbols.
    pub program: &'a [u8],
    /// An input for each hart.
    pub inputs: &'a [u32],
    /// A choice of each hart that was chosen, in any order.
    pub choices: &'a [Choice],
    /// The harts and their memory at the end.
    pub machine: &'a Machine<FlatStore<A>, A>,
}

/// Explains how a run ended, and which clause of a rule it breaks. `None` if out of memory.
pub fn ended_advice<A: Allocator + Copy>(
    alloc: A,
    ended: &Ended<'_, A>,
    explained: Explained,
) -> Option<String<A>> {
    let symbols = symbols_or_none(alloc, ended.program);
    let mut text = harts_advice(alloc, ended.image, &symbols, ended.machine, explained.ends).ok()?;
    if let Some(kind) = explained.rule {
        let judged = Judged {
            kind,
            inputs: ended.inputs,
            choices: ended.choices,
            harts: ended.machine.ends(),
        };
        push_broken(&mut text, &judged).ok()?;
    }
    Some(text)
}

/// Explains how a program's run under a choice text ends, and which clause of a rule it breaks.
/// `None` if there is no such run, or out of memory.
pub fn run_advice<A: Allocator + Copy>(
    alloc: A,
    form: ProgramForm,
    program: &[u8],
    inputs: &[u32],
    choices: &[u8],
    explained: Explained,
) -> Option<String<A>> {
    let ran = run_again(alloc, form, program, inputs, choices)?;
    let choices = ran.chosen.choices(alloc).ok()?;
    let ended = Ended {
        image: &ran.image,
        program,
        inputs,
        choices: &choices,
        machine: &ran.machine,
    };
    ended_advice(alloc, &ended, explained)
}

/// Whether all harts still run at the end of a program's run under a choice text. `None` if there is
/// no such run, or out of memory.
pub fn all_still_run<A: Allocator + Copy>(
    alloc: A,
    form: ProgramForm,
    program: &[u8],
    inputs: &[u32],
    choices: &[u8],
) -> Option<bool> {
    let ran = run_again(alloc, form, program, inputs, choices)?;
    Some(
        ran.machine
            .ends()
            .iter()
            .all(|hart| hart.state == HartState::Running),
    )
}
