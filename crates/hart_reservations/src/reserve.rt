//! The reservations of all harts, as a fixed array.
ghost use Rattle.std.specs.Prelude.{◌≡◌, ℕ};
ghost use Rattle.hart_reservations.specs.Marks.{mark_at, mark_after};
ghost use Rattle.hart_reservations.specs.Holders.{Covers};

use crate::holders::Holders;

/// The largest number of harts in a machine.
pub const MAX_HARTS: usize = 32;

/// The word that each hart has reserved, if any, by its address. It allocates nothing.
///
/// The reservation set of the Unprivileged ISA, "Load-Reserved/Store-Conditional Instructions", is
/// one aligned word.
#[derive(Clone, Copy, Drop)]
pub struct Reserve {
    words: [Option<u32>; MAX_HARTS],
    holders: Holders,
    ghost covered: { Covers holders (mark_at words) },
}

impl Reserve {
    ghost use Rattle.std.specs.Prelude.{◌≡◌, ℕ, ◌<◌, None};
    ghost use Rattle.hart_reservations.specs.Marks.{with_mark, without_mark, names, ended, word_of};
    ghost use Rattle.hart_reservations.specs.Limit.{most_harts};
    ghost use Rattle.hart_reservations.specs.Reserve.{marks};

    /// Reservations of no hart.
    pub fn new() -> Self
        ensures { marks result ≡ (λ _. None) }
    {
        Reserve {
            words: [None; MAX_HARTS],
            holders: Holders::Nobody,
        }
    }

    /// Reserves a word for a hart; an earlier reservation of the hart ends.
    pub fn set(&mut self, hart: usize, word: u32)
        requires { hart < most_harts }
        ensures { marks self.new ≡ with_mark (marks self.old) hart word }
    {
        self.holders = self.holders.with(hart);
        self.words[hart] = Some(word);
    }

    /// Ends a hart's reservation.
    pub fn clear(&mut self, hart: usize)
        requires { hart < most_harts }
        ensures { marks self.new ≡ without_mark (marks self.old) hart }
    {
        self.words[hart] = None;
        self.holders = self.holders.without(hart);
    }

    /// Whether a hart's reservation is of this word.
    pub fn holds(&self, hart: usize, word: u32) -> bool
        requires { hart < most_harts }
        ensures { result ≡ names (marks self.now hart) word }
    {
        match self.words[hart] {
            Some(held) => held == word,
            None => false,
        }
    }

    /// A store by a hart into a word ends all other harts' reservations of that word.
    #[inline]
    pub fn stored_by(&mut self, hart: usize, address: u32)
        ensures { marks self.new ≡ ended (marks self.old) hart (word_of address) }
    {
        if self.holders.has_other(hart) {
            self.holders = end_others(&mut self.words, hart, address - address % 4);
        }
    }
}

// Ends all reservations of a word except one hart's; returns the harts that may still have one.
fn end_others(words: &mut [Option<u32>], hart: usize, word: u32) -> Holders
    ensures ended { (k : ℕ) → mark_at words.new k ≡ mark_after (mark_at words.old) hart word k }
    ensures covered { Covers result (mark_at words.new) }
{
    let mut holders = Holders::Nobody;
    for (i, held) in words.iter_mut().enumerate() {
        if i != hart && *held == Some(word) {
            *held = None;
        }
        if held.is_some() {
            holders = holders.with(i);
        }
    }
    holders
}
