//! The lines of harts.
ghost use Rattle.std.specs.Prelude.{◌≡◌, ◌++◌, Some, OnOk, IfOk, string_bytes};
ghost use Rattle.debug_session.specs.Session.{session, world_at};
ghost use Rattle.gdb_monitor.specs.Texts.{hart_end_text, reserved_text, hart_entry, harts_text};

use crate::reserving::reserved_at;
use debug_session::Debugger;
use hart_step::HartState;
use isa_names::Word;
use std::alloc::{AllocError, Allocator};
use std::fmt;
use trace_text::cause_name;

// Whether a hart runs, and how it ended.
#[derive(Clone, Copy)]
struct StateText {
    state: HartState,
}

impl fmt::Display for StateText {
    ghost output = { λ t. Some (hart_end_text t.state) };

    #[tactic(auto, unfolding(trace_text::specs::Values::cause_text))]
    fn fmt<W: fmt::Write>(&self, f: &mut fmt::Formatter<W>) -> fmt::Result {
        match self.state {
            HartState::Running => f.write_str("running"),
            HartState::Exited(status) => {
                let status = Word(status);
                write!(f, "exited a0 {status}")
            }
            HartState::Faulted(cause) => {
                let name = cause_name(cause);
                write!(f, "faulted {name}")
            }
        }
    }
}

// The word that a hart has reserved.
#[derive(Clone, Copy)]
struct ReservedText {
    word: Option<u32>,
}

impl fmt::Display for ReservedText {
    ghost output = { λ t. Some (reserved_text t.word) };

    fn fmt<W: fmt::Write>(&self, f: &mut fmt::Formatter<W>) -> fmt::Result {
        match self.word {
            None => f.write_str(""),
            Some(word) => {
                let word = Word(word);
                write!(f, " reserves {word}")
            }
        }
    }
}

// Appends the line of a hart.
fn push_hart<A: Allocator>(
    text: &mut String<A>,
    number: usize,
    state: HartState,
    word: Option<u32>,
) -> Result<(), AllocError>
    ensures { OnOk result (string_bytes text.new
        ≡ string_bytes text.old ++ hart_entry number state word) }
{
    let state = StateText { state };
    let reserved = ReservedText { word };
    writeln!(text, "hart {number} {state}{reserved}")?;
    Ok(())
}

/// The lines of all harts at the position.
pub fn harts_text<A: Allocator + Copy>(
    alloc: A,
    debugger: &Debugger<A>,
) -> Result<String<A>, AllocError>
    ensures { IfOk result (λ text. string_bytes text
        ≡ harts_text (world_at (session debugger.now) (session debugger.now).position)) }
{
    let harts = debugger.machine().ends();
    let mut text = String::new(alloc);
    'harts: for (number, hart) in harts.iter().enumerate() {
        let word = reserved_at(alloc, debugger, number)?;
        push_hart(&mut text, number, hart.state, word)?;
    }
    Ok(text)
}
