//! The last pass, which proves the list minimal.
ghost use Rattle.std.specs.Prelude.{◌≡◌, ◌<◌, Ok, None, IfOk, IfSome, length};
ghost use Rattle.cmd_shrink.specs.Less.{IsLessOfEach};
ghost use Rattle.cmd_shrink.specs.Switches.{HasFewSwitches};
ghost use Rattle.cmd_shrink.specs.Minimal.{IsMinimal, IsNeeded, Lessens};

use crate::edits::{Edit, edited};
use crate::failing::Failing;
use crate::few_switches::exchange_runs;
use crate::hearing::ChoicesLeft;
use machine::Choice;
use std::alloc::{AllocError, Allocator};

// The list without one of its choices, or else without that choice's mark, if it still fails.
fn smaller_at<A: Allocator + Copy, F: Failing>(
    alloc: A,
    test: &F,
    choices: &[Choice],
    at: usize,
) -> Result<Option<Vec<Choice, A>>, AllocError>
    requires there { at < length choices.now }
    ensures found { IfOk result (λ found. IfSome found (λ list.
        Lessens (F.fails test.now) list.items choices.now)) }
    ensures none { result ≡ Ok None → IsNeeded (F.fails test.now) at choices.now }
{
    let shorter = edited(alloc, choices, at, at + 1, Edit::LeaveOut)?;
    if test.is_failing(&shorter)? {
        return Ok(Some(shorter));
    }
    if !choices[at].refuse {
        return Ok(None);
    }
    let unmarked = edited(alloc, choices, at, at + 1, Edit::TakeMarks)?;
    if test.is_failing(&unmarked)? {
        return Ok(Some(unmarked));
    }
    Ok(None)
}

// The list without the first choice or mark that isn't needed; `None` if each is needed.
fn first_smaller<A: Allocator + Copy, F: Failing>(
    alloc: A,
    test: &F,
    choices: &[Choice],
) -> Result<Option<Vec<Choice, A>>, AllocError>
    ensures found { IfOk result (λ found. IfSome found (λ list.
        Lessens (F.fails test.now) list.items choices.now)) }
    ensures none { result ≡ Ok None → IsMinimal (F.fails test.now) choices.now }
{
    'choices: for at in 0..choices.len() {
        if let Some(smaller) = smaller_at(alloc, test, choices, at)? {
            return Ok(Some(smaller));
        }
    }
    Ok(None)
}

/// Moves runs and removes choices and marks, one after another, until each one left is needed and
/// no exchange or move of runs, by which there are fewer switches, fails.
pub(crate) fn make_minimal<A: Allocator + Copy, F: Failing, L: ChoicesLeft>(
    alloc: A,
    test: &F,
    given: Vec<Choice, A>,
    left: &mut L,
) -> Result<Vec<Choice, A>, AllocError>
    requires fails { F.fails test.now given.items }
    ensures less { IfOk result (λ list. IsLessOfEach list.items given.items) }
    ensures fails { IfOk result (λ list. F.fails test.now list.items) }
    ensures minimal { IfOk result (λ list. IsMinimal (F.fails test.now) list.items) }
    ensures few { IfOk result (λ list. HasFewSwitches (F.fails test.now) list.items) }
{
    let mut choices = exchange_runs(alloc, test, given)?;
    'removals: while let Some(smaller) = first_smaller(alloc, test, &choices)? {
        left.choices_left(smaller.len());
        choices = exchange_runs(alloc, test, smaller)?;
    }
    Ok(choices)
}
