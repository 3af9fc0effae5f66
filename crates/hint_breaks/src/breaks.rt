//! Where a run first breaks properties.

use byte_io::MemorySource;
use elf_read::Symbol;
use hint_fault::{push_standing, symbols_or_none};
use isa_names::Word;
use machine::Machine;
use mem_flat::FlatStore;
use program_open::{OpenRun, ProgramForm, open_run};
use property_judge::{Judged, Property, is_within, judge_run, word_read};
use std::alloc::{AllocError, Allocator, Global};

/// Tells where the harts stood, or what the word was, where a run first broke each of these
/// properties: a line for each that is broken. `None` when out of memory.
pub fn breaks_advice(
    alloc: Global,
    run: &OpenRun<Global>,
    symbols: &[Symbol<Global>],
    judged: &[Judged],
) -> Option<String> {
    let mut text = String::new(alloc);
    for each in judged.iter() {
        if let Some(choices) = each.broken {
            let machine = machine_after(alloc, run, choices)?;
            push_break(&mut text, symbols, &machine, each.property, choices).ok()?;
        }
    }
    Some(text)
}

/// The same of a program's run under a choice text, which is judged by these properties. `None` if
/// there is no such run.
pub fn breaks_of_run(
    alloc: Global,
    program: &[u8],
    inputs: &[u32],
    choices: &[u8],
    properties: &[Property],
) -> Option<String> {
    let mut file = MemorySource::new(program);
    let mut text = MemorySource::new(choices);
    let run = open_run(alloc, ProgramForm::Elf, inputs, &mut file, &mut text).ok()?;
    let mut judged = unjudged(alloc, properties).ok()?;
    let mut machine: Machine<FlatStore<Global>, Global> = Machine::start(
        alloc,
        &run.image,
        &run.inputs,
    ).ok()?;
    judge_run(&mut machine, &run.choices, &mut judged).ok()?;
    let symbols = symbols_or_none(alloc, program);
    breaks_advice(alloc, &run, &symbols, &judged)
}

// Properties before a run.
fn unjudged(alloc: Global, properties: &[Property]) -> Result<Vec<Judged>, AllocError> {
    let mut judged = Vec::new(alloc);
    for property in properties.iter() {
        judged.push(Judged {
            property: *property,
            broken: None,
        })?;
    }
    Ok(judged)
}

// The machine after so many choices of a run.
fn machine_after<A: Allocator + Copy>(
    alloc: A,
    run: &OpenRun<A>,
    choices: usize,
) -> Option<Machine<FlatStore<A>, A>> {
    let mut machine = Machine::start(alloc, &run.image, &run.inputs).ok()?;
    for choice in run.choices.iter().take(choices) {
        if choice.hart as usize >= machine.harts() {
            return None;
        }
        machine.step(*choice).ok()?;
    }
    Some(machine)
}

// Appends the words on a property that is broken in a machine's world, after so many choices.
fn push_break<A: Allocator>(
    text: &mut String<A>,
    symbols: &[Symbol<A>],
    machine: &Machine<FlatStore<A>, A>,
    property: Property,
    choices: usize,
) -> Result<(), AllocError> {
    write!(text, "after {choices} choices:")?;
    match property {
        Property::NeverBoth { from, to } => push_harts(text, symbols, machine, from, to)?,
        Property::Always { word, .. } => {
            let value = word_read(machine.store(), word);
            let shown = Word(value);
            write!(text, " the word is {value}, 0x{shown};")?;
        }
    }
    writeln!(text, " goto {choices} in rvcons debug goes there")
}

// Appends the places of the harts between two addresses.
fn push_harts<A: Allocator>(
    text: &mut String<A>,
    symbols: &[Symbol<A>],
    machine: &Machine<FlatStore<A>, A>,
    from: u32,
    to: u32,
) -> Result<(), AllocError> {
    for (number, hart) in machine.ends().iter().enumerate() {
        if is_within(hart, from, to) {
            text.push_str(" ")?;
            push_standing(text, symbols, number, hart.pc)?;
            text.push_str(";")?;
        }
    }
    Ok(())
}
