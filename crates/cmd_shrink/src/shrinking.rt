//! Makes a failing list minimal. Zeller and Hildebrandt, "Simplifying and Isolating
//! Failure-Inducing Input", 2002.
ghost use Rattle.std.specs.Prelude.{IfOk};
ghost use Rattle.cmd_shrink.specs.Less.{IsLessOfEach};
ghost use Rattle.cmd_shrink.specs.Minimal.{IsMinimal};
ghost use Rattle.cmd_shrink.specs.Switches.{HasFewSwitches};

use crate::edits::Edit;
use crate::failing::Failing;
use crate::hearing::ChoicesLeft;
use crate::minimal::make_minimal;
use crate::passes::{failing_beginning, thin_out};
use machine::Choice;
use std::alloc::{AllocError, Allocator};

/// Given a failing list, a failing list of some of its choices, those of each hart in their order,
/// some without their mark. It is minimal: without any one of its choices, or any one of its marks,
/// it no longer fails. Nor does it after an exchange of two neighbouring runs of choices of one
/// hart, or a move of a run to the next one of its hart, by which there are fewer switches. First
/// everything after the failure is cut, then halves of the list, quarters and so on.
pub fn shrink_choices<A: Allocator + Copy, F: Failing, L: ChoicesLeft>(
    alloc: A,
    test: &F,
    given: &[Choice],
    left: &mut L,
) -> Result<Vec<Choice, A>, AllocError>
    requires { F.fails test.now given.now }
    ensures less { IfOk result (λ list. IsLessOfEach list.items given.now) }
    ensures fails { IfOk result (λ list. F.fails test.now list.items) }
    ensures minimal { IfOk result (λ list. IsMinimal (F.fails test.now) list.items) }
    ensures few { IfOk result (λ list. HasFewSwitches (F.fails test.now) list.items) }
{
    let end = failing_beginning(test, given)?;
    let beginning = Vec::from_slice(alloc, &given[..end])?;
    let fewer = thin_out(alloc, test, beginning, Edit::LeaveOut, left)?;
    let plainer = thin_out(alloc, test, fewer, Edit::TakeMarks, left)?;
    let minimal = make_minimal(alloc, test, plainer, left)?;
    left.choices_needed(minimal.len());
    Ok(minimal)
}
