//! The choices that a history stands for, as a list.
ghost use Rattle.std.specs.Prelude.{◌≡◌, ◌++◌, IfOk, OnOk};
ghost use Rattle.history.specs.History.{entry_choices, expanded};

use history::Entry;
use machine::Choice;
use std::alloc::{AllocError, Allocator};

// Appends the choices of an entry.
fn push_entry<A: Allocator>(choices: &mut Vec<Choice, A>, entry: Entry) -> Result<(), AllocError>
    ensures { OnOk result (choices.new.items ≡ choices.old.items ++ entry_choices entry) }
{
    let plain = Choice {
        hart: entry.hart,
        refuse: false,
    };
    let Some(length) = choices.len().checked_add(entry.local as usize) else {
        return Err(AllocError);
    };
    choices.resize(length, plain)?;
    choices.push(Choice {
        hart: entry.hart,
        refuse: entry.refuse,
    })?;
    Ok(())
}

/// The choices that a history stands for: an entry is a plain choice of its hart for each of its
/// local steps, and then one with its mark. Fails when out of memory.
#[tactic(auto, using(history::proofs::ReplayLemmas::expanded_more), unfolding(history::specs::History::expanded))]
pub fn expand_history<A: Allocator>(
    alloc: A,
    history: &[Entry],
) -> Result<Vec<Choice, A>, AllocError>
    ensures { IfOk result (λ choices. choices.items ≡ expanded history.now) }
{
    let mut choices = Vec::new(alloc);
    'entries: for entry in history {
        push_entry(&mut choices, *entry)?;
    }
    Ok(choices)
}
