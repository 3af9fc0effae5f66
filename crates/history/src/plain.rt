//! A list of choices as a history.

ghost use Rattle.std.specs.Prelude.{◌≡◌, IfOk, map};
ghost use Rattle.history.specs.History.{expanded};
ghost use Rattle.history.specs.Plain.{plain_entry};

use crate::Entry;
use machine::Choice;
use std::alloc::{AllocError, Allocator};

/// Choices as a history: one entry without local steps per choice, so that it stands for these
/// choices.
pub fn history_of<A: Allocator>(alloc: A, choices: &[Choice]) -> Result<Vec<Entry, A>, AllocError>
    ensures entries { IfOk result (λ history. history.items ≡ map plain_entry choices.now) }
    ensures choices { IfOk result (λ history. expanded history.items ≡ choices.now) }
{
    let history = entries_of(alloc, choices)?;
    Ok(history)
}

// An entry for each choice.
fn entries_of<A: Allocator>(alloc: A, choices: &[Choice]) -> Result<Vec<Entry, A>, AllocError>
    ensures { IfOk result (λ history. history.items ≡ map plain_entry choices.now) }
{
    let mut history = Vec::new(alloc);
    'choices: for choice in choices {
        history.push(Entry {
            hart: choice.hart,
            local: 0,
            refuse: choice.refuse,
        })?;
    }
    Ok(history)
}
