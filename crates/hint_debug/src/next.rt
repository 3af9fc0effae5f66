//! The next step.

use debug_session::Debugger;
use elf_read::Symbol;
use hart_step::{Hart, HartState};
use hint_fault::{push_instruction, push_standing};
use mem_store::Store;
use std::alloc::{AllocError, Allocator};

/// The line of the next step at a debugger's position: the hart, its place, with the label before
/// it, and its instruction; that it has stopped; or that no choice is left.
pub fn next_text<A: Allocator + Copy>(
    alloc: A,
    debugger: &Debugger<A>,
    symbols: &[Symbol<A>],
) -> Result<String<A>, AllocError> {
    let mut text = String::new(alloc);
    match debugger.choices().get(debugger.position()) {
        Some(choice) => { push_next(&mut text, debugger, symbols, choice.hart as usize)? }
        None => text.push_str("next: no choice is left\n")?,
    }
    Ok(text)
}

// Appends the line of the next step of this hart.
fn push_next<A: Allocator + Copy>(
    text: &mut String<A>,
    debugger: &Debugger<A>,
    symbols: &[Symbol<A>],
    number: usize,
) -> Result<(), AllocError> {
    let machine = debugger.machine();
    if number >= machine.harts() {
        return Ok(());
    }
    let hart = machine.hart(number);
    text.push_str("next: ")?;
    push_standing(text, symbols, number, hart.pc)?;
    push_doing(text, hart, machine.store().fetch(hart.pc))
}

// Appends the instruction of a hart at this word.
fn push_doing<A: Allocator>(
    text: &mut String<A>,
    hart: &Hart,
    word: Option<u32>,
) -> Result<(), AllocError> {
    let said = match (hart.state, word) {
        (HartState::Exited(_), _) => ": it has exited, and does nothing\n",
        (HartState::Faulted(_), _) => ": it has faulted, and does nothing\n",
        (HartState::Running, None) => ": no instruction can be taken there\n",
        (HartState::Running, Some(word)) => {
            push_instruction(text, hart.pc, word)?;
            "\n"
        }
    };
    text.push_str(said)
}
