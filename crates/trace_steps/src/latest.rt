//! The word that each hart reserved last.
ghost use Rattle.std.specs.Prelude.{◌≡◌, ◌<◌, ℕ, None};
ghost use Rattle.hart_reservations.specs.Reserve.{marks};

use hart_reservations::{MAX_HARTS, Reserve};
use hart_step::Access;

/// The word that each hart reserved last. Reservations can be asked whether they are of a word, so
/// this is how a hart's reservation is found. It takes no memory of the host.
#[derive(Clone, Copy, Drop)]
pub struct Latest {
    words: [u32; MAX_HARTS],
}

impl Latest {
    ghost use Rattle.std.specs.Prelude.{◌≡◌, ◌<◌, ℕ, Option, Some, None};
    ghost use Rattle.hart_reservations.specs.Limit.{most_harts};
    ghost use Rattle.hart_reservations.specs.Marks.{Marks};
    ghost use Rattle.hart_reservations.specs.Reserve.{marks};
    ghost use Rattle.trace_steps.specs.Known.{Knows, KnowsBut};
    ghost use Rattle.trace_steps.specs.Latest.{latest_words};

    /// As no hart has reserved a word.
    pub fn new() -> Self
        ensures { (r : Marks) → ((k : ℕ) → r k ≡ None) → Knows (latest_words result) r }
    {
        Latest {
            words: [0; MAX_HARTS],
        }
    }

    /// The address of the word that a hart has reserved.
    #[tactic(auto, using(crate::proofs::MarkLemmas::found))]
    pub fn reserved(&self, reserve: &Reserve, hart: usize) -> Option<u32>
        requires there { hart < most_harts }
        requires known { Knows (latest_words self.now) (marks reserve.now) }
        ensures { result ≡ marks reserve.now hart }
    {
        let word = self.words[hart];
        if reserve.holds(hart, word) {
            Some(word)
        } else {
            None
        }
    }

    /// Takes in what a step of a hart with this access has reserved.
    pub(crate) fn note(&mut self, reserve: &Reserve, hart: usize, access: Option<Access>)
        requires there { hart < most_harts }
        requires known { KnowsBut (latest_words self.old) access hart (marks reserve.now) }
        ensures { Knows (latest_words self.new) (marks reserve.now) }
    {
        let Some(access) = access else {
            return;
        };
        if reserve.holds(hart, access.address) {
            self.words[hart] = access.address;
        }
    }
}
