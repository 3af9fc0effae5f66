//! Which harts were chosen.
ghost use Rattle.std.specs.Prelude.{◌≡◌, ◌||◌, ◌&&◌, ◌==◌, ℕ, IfOk};
ghost use Rattle.machine.specs.Chosen.{is_chosen};

use hart_reservations::MAX_HARTS;
use machine::Choice;
use std::alloc::{AllocError, Allocator};

/// Which harts were chosen. Allocates nothing.
#[derive(Clone, Copy, Drop)]
pub struct Chosen {
    marks: [bool; MAX_HARTS],
}

impl Chosen {
    ghost use Rattle.std.specs.Prelude.{◌≡◌, ◌<◌, ℕ, false, IfOk};
    ghost use Rattle.machine.specs.Chosen.{is_chosen};
    ghost use Rattle.hart_reservations.specs.Limit.{most_harts};
    ghost use Rattle.sched_run.specs.Harts.{with_hart};
    ghost use Rattle.sched_run.specs.Chosen.{harts_of};

    /// No hart was chosen.
    pub fn new() -> Self
        ensures { harts_of result ≡ (λ _. false) }
    {
        Chosen {
            marks: [false; MAX_HARTS],
        }
    }

    /// Marks a hart as chosen.
    pub fn add(&mut self, hart: usize)
        requires { hart < most_harts }
        ensures { harts_of self.new ≡ with_hart (harts_of self.old) hart }
    {
        self.marks[hart] = true;
    }

    /// Whether a hart was chosen.
    pub fn has(&self, hart: usize) -> bool
        requires { hart < most_harts }
        ensures { result ≡ harts_of self.now hart }
    {
        self.marks[hart]
    }

    /// One choice of each hart that was chosen, in order of the harts. A judge needs no more of a
    /// list of choices.
    pub fn choices<A: Allocator>(&self, alloc: A) -> Result<Vec<Choice, A>, AllocError>
        ensures { IfOk result (λ choices. (k : ℕ)
            → is_chosen choices.items k ≡ harts_of self.now k) }
    {
        let mut choices = Vec::new(alloc);
        'harts: for (hart, marked) in self.marks.iter().enumerate() {
            push_marked(&mut choices, hart as u32, *marked)?;
        }
        Ok(choices)
    }
}

// Appends a choice of a hart, if it is marked.
#[tactic(auto, using(crate::proofs::ChosenLemmas::added, crate::proofs::ChosenLemmas::unmarked))]
fn push_marked<A: Allocator>(
    choices: &mut Vec<Choice, A>,
    hart: u32,
    marked: bool,
) -> Result<(), AllocError>
    ensures { IfOk result (λ _. (k : ℕ) → is_chosen choices.new.items k
        ≡ (is_chosen choices.old.items k || (marked && (hart == k)))) }
{
    if !marked {
        return Ok(());
    }
    choices.push(Choice {
        hart,
        refuse: false,
    })?;
    Ok(())
}
