//! Which harts a history chooses.
ghost use Rattle.std.specs.Prelude.{◌≡◌, ◌||◌, ◌==◌, ℕ, IfOk};
ghost use Rattle.machine.specs.Chosen.{is_chosen, ChooseAlike};
ghost use Rattle.history.specs.History.{expanded};

use crate::Entry;
use machine::Choice;
use std::alloc::{AllocError, Allocator};

/// One choice of each hart that a history chooses. A judge needs no more of its choices.
pub fn chosen_harts<A: Allocator>(alloc: A, history: &[Entry]) -> Result<Vec<Choice, A>, AllocError>
    ensures { IfOk result (λ chosen. ChooseAlike chosen.items (expanded history.now)) }
{
    let mut chosen = Vec::new(alloc);
    'entries: for entry in history {
        add_hart(&mut chosen, entry.hart)?;
    }
    Ok(chosen)
}

fn is_chosen(choices: &[Choice], hart: u32) -> bool
    ensures { result ≡ is_chosen choices.now hart }
{
    choices.iter().any(|choice| choice.hart == hart)
}

// Appends a choice of a hart, unless there is one.
#[tactic(auto, using(crate::proofs::ChosenLemmas::added, crate::proofs::ChosenLemmas::there))]
fn add_hart<A: Allocator>(chosen: &mut Vec<Choice, A>, hart: u32) -> Result<(), AllocError>
    ensures { IfOk result (λ _. (k : ℕ) → is_chosen chosen.new.items k
        ≡ (is_chosen chosen.old.items k || (hart == k))) }
{
    if is_chosen(chosen, hart) {
        return Ok(());
    }
    chosen.push(Choice {
        hart,
        refuse: false,
    })?;
    Ok(())
}
