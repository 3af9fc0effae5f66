//! The harts that stop while a run goes on.

use debug_session::Debugger;
use elf_read::Symbol;
use hart_step::{Hart, HartState};
use hint_fault::push_standing;
use isa_names::Word;
use std::alloc::{AllocError, Allocator};

/// Which harts ran at a debugger's position.
#[derive(Drop)]
pub struct Before<A: Allocator> {
    // By their numbers.
    states: Vec<HartState, A>,
}

impl<A: Allocator> Before<A> {
    /// At this position.
    pub fn of(alloc: A, debugger: &Debugger<A>) -> Result<Before<A>, AllocError>
    where
        A: Copy,
    {
        let mut states = Vec::new(alloc);
        'harts: for hart in debugger.machine().ends() {
            states.push(hart.state)?;
        }
        Ok(Before { states })
    }

    // Whether a hart ran.
    fn ran(&self, number: usize) -> bool {
        self.states.get(number) == Some(&HartState::Running)
    }
}

/// Which harts ran before and have stopped, a line each: with the value in `a0` of an exit, or the
/// place of a fault. Empty if none has.
pub fn stops_text<A: Allocator + Copy>(
    alloc: A,
    debugger: &Debugger<A>,
    symbols: &[Symbol<A>],
    before: &Before<A>,
) -> Result<String<A>, AllocError> {
    let mut text = String::new(alloc);
    'harts: for (number, hart) in debugger.machine().ends().iter().enumerate() {
        if before.ran(number) {
            push_stop(&mut text, symbols, number, hart)?;
        }
    }
    Ok(text)
}

// Appends how a hart has stopped, if it has.
fn push_stop<A: Allocator>(
    text: &mut String<A>,
    symbols: &[Symbol<A>],
    number: usize,
    hart: &Hart,
) -> Result<(), AllocError> {
    match hart.state {
        HartState::Running => Ok(()),
        HartState::Exited(status) => {
            let status = Word(status);
            writeln!(text, "hart {number} has exited with {status}")
        }
        HartState::Faulted(_) => {
            push_standing(text, symbols, number, hart.pc)?;
            writeln!(text, ": it has faulted, and regs {number} shows how")
        }
    }
}
