//! Removes large parts of a list, so that little is left for the last pass. The result need not be
//! minimal.
ghost use Rattle.std.specs.Prelude.{◌≤◌, ◌<◌, IfOk, length, take};
ghost use Rattle.cmd_shrink.specs.Less.{IsLess};

use crate::edits::{Edit, edited};
use crate::failing::Failing;
use crate::hearing::ChoicesLeft;
use machine::Choice;
use std::alloc::{AllocError, Allocator};

/// The length of a failing beginning: the shortest, if each longer beginning of a failing one fails
/// too.
pub(crate) fn failing_beginning<F: Failing>(
    test: &F,
    choices: &[Choice],
) -> Result<usize, AllocError>
    requires { F.fails test.now choices.now }
    ensures within { IfOk result (λ count. count ≤ length choices.now) }
    ensures fails { IfOk result (λ count. F.fails test.now (take count choices.now)) }
{
    let mut least = 0;
    let mut most = choices.len();
    'halves: while least < most {
        let middle = least + (most - least) / 2;
        if test.is_failing(&choices[..middle])? {
            most = middle;
            continue;
        }
        least = middle + 1;
    }
    Ok(most)
}

// Whether an edit may change a part: marks can be removed only if there are some.
fn may_change(part: &[Choice], edit: Edit) -> bool {
    match edit {
        Edit::LeaveOut => true,
        Edit::TakeMarks => part.iter().any(|choice| choice.refuse),
    }
}

// The list after an edit of a part if it still fails, else the list itself.
#[tactic(auto, using(crate::proofs::LessLemmas::less_edited, crate::proofs::LessLemmas::less_same))]
fn try_edit<A: Allocator + Copy, F: Failing>(
    alloc: A,
    test: &F,
    choices: Vec<Choice, A>,
    from: usize,
    to: usize,
    edit: Edit,
) -> Result<Vec<Choice, A>, AllocError>
    requires order { from ≤ to }
    requires within { to ≤ length choices.items }
    requires fails { F.fails test.now choices.items }
    ensures less { IfOk result (λ list. IsLess list.items choices.items) }
    ensures fails { IfOk result (λ list. F.fails test.now list.items) }
    ensures front { IfOk result (λ list. from ≤ length list.items) }
{
    if !may_change(&choices[from..to], edit) {
        return Ok(choices);
    }
    let shorter = edited(alloc, &choices, from, to, edit)?;
    if test.is_failing(&shorter)? {
        return Ok(shorter);
    }
    Ok(choices)
}

// Goes through the parts of a size, from the last to the first, and edits each if the list then
// still fails.
#[tactic(auto, using(crate::proofs::LessLemmas::less_trans, crate::proofs::LessLemmas::less_same))]
fn edit_parts<A: Allocator + Copy, F: Failing>(
    alloc: A,
    test: &F,
    given: Vec<Choice, A>,
    size: usize,
    edit: Edit,
) -> Result<Vec<Choice, A>, AllocError>
    requires some { 0 < size }
    requires fails { F.fails test.now given.items }
    ensures less { IfOk result (λ list. IsLess list.items given.items) }
    ensures fails { IfOk result (λ list. F.fails test.now list.items) }
{
    let mut to = given.len();
    let mut choices = given;
    'parts: while to > 0 {
        let from = to.saturating_sub(size);
        choices = try_edit(alloc, test, choices, from, to, edit)?;
        to = from;
    }
    Ok(choices)
}

/// Goes through parts of half the size each time, from the whole list down to single choices.
#[tactic(auto, using(crate::proofs::LessLemmas::less_trans, crate::proofs::LessLemmas::less_same))]
pub(crate) fn thin_out<A: Allocator + Copy, F: Failing, L: ChoicesLeft>(
    alloc: A,
    test: &F,
    given: Vec<Choice, A>,
    edit: Edit,
    left: &mut L,
) -> Result<Vec<Choice, A>, AllocError>
    requires fails { F.fails test.now given.items }
    ensures less { IfOk result (λ list. IsLess list.items given.items) }
    ensures fails { IfOk result (λ list. F.fails test.now list.items) }
{
    let mut size = given.len();
    let mut choices = given;
    'sizes: while size > 0 {
        choices = edit_parts(alloc, test, choices, size, edit)?;
        left.choices_left(choices.len());
        size /= 2;
    }
    Ok(choices)
}
