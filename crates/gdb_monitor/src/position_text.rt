//! The line of a position.
ghost use Rattle.std.specs.Prelude.{◌≡◌, Some, IfOk, string_bytes};
ghost use Rattle.gdb_monitor.specs.Texts.{next_text, next_position};

use debug_text::mark_text;
use machine::Choice;
use std::alloc::{AllocError, Allocator};
use std::fmt;

// The choice that comes next, or the end.
#[derive(Clone, Copy)]
struct NextText {
    choice: Option<Choice>,
}

impl fmt::Display for NextText {
    ghost output = { λ t. Some (next_text t.choice) };

    fn fmt<W: fmt::Write>(&self, f: &mut fmt::Formatter<W>) -> fmt::Result {
        match self.choice {
            None => f.write_str(", end"),
            Some(choice) => {
                let hart = choice.hart;
                let mark = mark_text(choice.refuse);
                write!(f, ", next hart {hart}{mark}")
            }
        }
    }
}

/// The line of the position after k choices, with the choice that comes next.
pub fn position_text<A: Allocator>(
    alloc: A,
    choices: &[Choice],
    k: usize,
) -> Result<String<A>, AllocError>
    ensures { IfOk result (λ text. string_bytes text ≡ next_position choices.now k) }
{
    let n = choices.len();
    let next = NextText {
        choice: choices.get(k).copied(),
    };
    format!(in alloc; "step {k} of {n}{next}\n")
}
