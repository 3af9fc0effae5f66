//! A list without a part of it, and a list without the marks of a part.
ghost use Rattle.std.specs.Prelude.{◌≡◌, ◌≤◌, ◌++◌, OnOk, IfOk, length, map};
ghost use Rattle.cmd_shrink.specs.Edits.{unmarked_choice, left_out, marks_taken, edited};

use machine::Choice;
use std::alloc::{AllocError, Allocator};

/// A change to a part of a list.
#[derive(Clone, Copy)]
pub(crate) enum Edit {
    /// Its choices are left out.
    LeaveOut,
    /// The marks of its choices are removed.
    TakeMarks,
}

// A list without the choices from one index up to another.
fn left_out<A: Allocator>(
    alloc: A,
    choices: &[Choice],
    from: usize,
    to: usize,
) -> Result<Vec<Choice, A>, AllocError>
    requires order { from ≤ to }
    requires within { to ≤ length choices.now }
    ensures { IfOk result (λ list. list.items ≡ left_out from to choices.now) }
{
    let mut list = Vec::with_capacity(alloc, choices.len() - (to - from))?;
    list.extend_from_slice(&choices[..from])?;
    list.extend_from_slice(&choices[to..])?;
    Ok(list)
}

// Appends choices without their marks. If out of memory, some of them are appended.
fn push_without_marks<A: Allocator>(
    list: &mut Vec<Choice, A>,
    part: &[Choice],
) -> Result<(), AllocError>
    ensures { OnOk result (list.new.items ≡ list.old.items ++ map unmarked_choice part.now) }
{
    'part: for choice in part {
        list.push(Choice {
            hart: choice.hart,
            refuse: false,
        })?;
    }
    Ok(())
}

// A list without the marks from one index up to another.
fn marks_taken<A: Allocator>(
    alloc: A,
    choices: &[Choice],
    from: usize,
    to: usize,
) -> Result<Vec<Choice, A>, AllocError>
    requires order { from ≤ to }
    requires within { to ≤ length choices.now }
    ensures { IfOk result (λ list. list.items ≡ marks_taken from to choices.now) }
{
    let mut list = Vec::with_capacity(alloc, choices.len())?;
    list.extend_from_slice(&choices[..from])?;
    push_without_marks(&mut list, &choices[from..to])?;
    list.extend_from_slice(&choices[to..])?;
    Ok(list)
}

/// A list after an edit of the part from one index up to another.
pub(crate) fn edited<A: Allocator>(
    alloc: A,
    choices: &[Choice],
    from: usize,
    to: usize,
    edit: Edit,
) -> Result<Vec<Choice, A>, AllocError>
    requires order { from ≤ to }
    requires within { to ≤ length choices.now }
    ensures { IfOk result (λ list. list.items ≡ edited edit from to choices.now) }
{
    match edit {
        Edit::LeaveOut => left_out(alloc, choices, from, to),
        Edit::TakeMarks => marks_taken(alloc, choices, from, to),
    }
}
