//! What a person is told of a run that hangs.

use crate::spins::{Changed, Wait, begin_waits, follow_step, plain_choice, words_of_loop};
use cli_report::{push_instruction, push_standing, show};
use cmd_properties::{machine_after, steps_for, take_step};
use elf_read::{Symbol, nearest_label};
use hart_step::HartState;
use isa_names::Word;
use machine::Machine;
use mem_flat::FlatStore;
use mem_store::Store;
use program_named::NamedRun;
use program_open::OpenRun;
use std::alloc::{AllocError, Allocator, Global};

// The most harts that are told of: the others mostly wait for the same.
const MOST_HARTS: usize = 4;

/// Shows where each hart of a run that hangs spins, on which words it waits, who changed these last
/// and when, and which harts could change them.
pub(crate) fn show_hang<R: AllocGlobal + Eprint>(rt: &R, run: &NamedRun<Global>) {
    let words = hang_words(rt.alloc(), run);
    show(rt, words.as_deref().unwrap_or(""));
}

// The words on a run that hangs. The harts go on by turns, so that each that can stop has stopped.
fn hang_words(alloc: Global, run: &NamedRun<Global>) -> Option<String> {
    let steps = steps_for(run.opened.choices.len());
    let machine = settled(alloc, &run.opened, steps)?;
    let mut waits = waits_of(alloc, &machine).ok()?;
    follow_run(alloc, &run.opened, steps, &mut waits)?;
    let mut text = String::new(alloc);
    writeln!(
        text,
        "the run hangs; {steps} further steps of the harts in turn lead here:"
    )
    .ok()?;
    push_harts(
        &mut text,
        &machine,
        &run.symbols,
        &waits,
        run.opened.choices.len(),
    )
    .ok()?;
    text.push_str(
        "shrink --must-exit in the place of run --hangs prints few of the choices that lead there\n",
    ).ok()?;
    Some(text)
}

// The machine after a run and further steps of its harts in turn.
fn settled<A: Allocator + Copy>(
    alloc: A,
    run: &OpenRun<A>,
    steps: usize,
) -> Option<Machine<FlatStore<A>, A>> {
    let mut machine = machine_after(alloc, &run.image, &run.inputs, &run.choices).ok()?;
    let harts = machine.harts();
    for step in 0..steps {
        take_step(&mut machine, plain_choice(step.checked_rem(harts)?)?);
    }
    Some(machine)
}

// The words that the harts which still run load in their loops, of the first four such harts.
fn waits_of<A: Allocator + Copy>(
    alloc: A,
    machine: &Machine<FlatStore<A>, A>,
) -> Result<Vec<Wait, A>, AllocError> {
    let mut waits = Vec::new(alloc);
    for hart in running_harts(alloc, machine)?.iter().take(MOST_HARTS) {
        push_waits(alloc, machine, *hart, &mut waits)?;
    }
    Ok(waits)
}

// Appends the words of one hart.
fn push_waits<A: Allocator + Copy>(
    alloc: A,
    machine: &Machine<FlatStore<A>, A>,
    hart: usize,
    waits: &mut Vec<Wait, A>,
) -> Result<(), AllocError> {
    let Some(words) = words_of_loop(alloc, machine, hart) else {
        return Ok(());
    };
    for word in words.iter() {
        waits.push(Wait {
            hart,
            word: *word,
            value: 0,
            changed: None,
        })?;
    }
    Ok(())
}

// The numbers of the harts that still run.
fn running_harts<A: Allocator + Copy>(
    alloc: A,
    machine: &Machine<FlatStore<A>, A>,
) -> Result<Vec<usize, A>, AllocError> {
    let mut harts = Vec::new(alloc);
    for (number, hart) in machine.ends().iter().enumerate() {
        if hart.state == HartState::Running {
            harts.push(number)?;
        }
    }
    Ok(harts)
}

// Runs the choices and further steps in turn once more, and notes who changed the words last.
fn follow_run<A: Allocator + Copy>(
    alloc: A,
    run: &OpenRun<A>,
    steps: usize,
    waits: &mut [Wait],
) -> Option<()> {
    let mut machine: Machine<FlatStore<A>, A> = Machine::start(
        alloc,
        &run.image,
        &run.inputs,
    ).ok()?;
    begin_waits(&machine, waits);
    for (number, choice) in run.choices.iter().enumerate() {
        follow_step(&mut machine, *choice, number, waits);
    }
    let (harts, choices) = (machine.harts(), run.choices.len());
    for step in 0..steps {
        let choice = plain_choice(step.checked_rem(harts)?)?;
        follow_step(&mut machine, choice, choices.saturating_add(step), waits);
    }
    Some(())
}

// Appends the lines of the harts that still run, of which the first four are told of.
fn push_harts<A: Allocator + Copy>(
    text: &mut String<A>,
    machine: &Machine<FlatStore<A>, A>,
    symbols: &[Symbol<A>],
    waits: &[Wait],
    choices: usize,
) -> Result<(), AllocError> {
    let mut told = 0usize;
    for (number, hart) in machine.ends().iter().enumerate() {
        if hart.state == HartState::Running && told < MOST_HARTS {
            told += 1;
            push_standing(text, symbols, number, hart.pc)?;
            if let Some(word) = machine.store().fetch(hart.pc) {
                push_instruction(text, hart.pc, word)?;
            }
            text.push('\n')?;
            push_words(text, symbols, waits, number, choices)?;
            if waits.iter().any(|wait| wait.hart == number) {
                push_others(text, machine, number)?;
            }
        }
    }
    Ok(())
}

// Appends the lines of the words that a hart loads in its loop.
fn push_words<A: Allocator>(
    text: &mut String<A>,
    symbols: &[Symbol<A>],
    waits: &[Wait],
    number: usize,
    choices: usize,
) -> Result<(), AllocError> {
    for wait in waits {
        if wait.hart == number {
            push_word(text, symbols, wait, choices)?;
        }
    }
    Ok(())
}

// Appends the line of a word: its address and label, its value, and who changed it last.
fn push_word<A: Allocator>(
    text: &mut String<A>,
    symbols: &[Symbol<A>],
    wait: &Wait,
    choices: usize,
) -> Result<(), AllocError> {
    let shown = Word(wait.word);
    write!(text, "    it spins on the word {shown}")?;
    if let Some(symbol) = nearest_label(symbols, wait.word) {
        let distance = wait.word.saturating_sub(symbol.address);
        text.push_str(", ")?;
        text.push_str(symbol.name.as_str())?;
        if distance > 0 {
            write!(text, "+{distance}")?;
        }
    }
    let value = wait.value;
    write!(text, ", which is {value}; ")?;
    match wait.changed {
        Some(changed) => push_changed(text, symbols, changed, choices),
        None => text.push_str("no step has changed it\n"),
    }
}

// Appends who changed a word last, and when.
fn push_changed<A: Allocator>(
    text: &mut String<A>,
    symbols: &[Symbol<A>],
    changed: Changed,
    choices: usize,
) -> Result<(), AllocError> {
    if changed.choice < choices {
        let choice = changed.choice;
        write!(text, "choice {choice} changed it last, ")?;
    } else {
        text.push_str("one of the further steps changed it last, ")?;
    }
    push_standing(text, symbols, changed.hart, changed.pc)?;
    text.push('\n')
}

// Appends which other harts still run, so that they could change what a hart waits for.
fn push_others<A: Allocator>(
    text: &mut String<A>,
    machine: &Machine<FlatStore<A>, A>,
    number: usize,
) -> Result<(), AllocError> {
    let mut before = "    another hart would have to go on, of those that still run: ";
    let mut some = false;
    for (other, hart) in machine.ends().iter().enumerate() {
        if other != number && hart.state == HartState::Running {
            write!(text, "{before}hart {other}")?;
            before = ", ";
            some = true;
        }
    }
    text.push_str(if some {
        "\n"
    } else {
        "    another hart would have to go on, and no other still runs\n"
    })
}
