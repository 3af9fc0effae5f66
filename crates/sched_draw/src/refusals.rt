//! Which drawn words refuse a store-conditional.

ghost use Rattle.std.specs.Prelude.{◌≡◌, ◌/◌, ◌%◌, ◌==◌, ◌↔◌, ℕ, Bool, true};
ghost use Rattle.sched_draw.specs.Refusing.{is_refused, IsOneIn};

use crate::chance::Chance;

/// A rule by which drawn words refuse.
pub(crate) trait Rule: Copy {
    /// Whether a word refuses.
    ghost refused: { Self → ℕ → Bool };

    /// Whether a word refuses.
    fn does_refuse(self, word: u32) -> bool
        ensures { result ≡ refused self word };
}

/// Which choices of a drawn schedule refuse a store-conditional.
#[derive(Clone, Copy, Drop)]
pub enum Refusals {
    /// None of them.
    Never,
    /// Each of them with this chance.
    OneIn(Chance),
}

impl Refusals {
    /// One in 16, the default.
    pub fn usual() -> Refusals
        ensures { IsOneIn 16 result }
    {
        Refusals::OneIn(Chance::one_in_16())
    }

    /// Whether these are the usual ones.
    pub fn is_usual(self) -> bool
        ensures { (result ≡ true) ↔ IsOneIn 16 self }
    {
        if let Refusals::OneIn(chance) = self {
            chance.one_in() == 16
        } else {
            false
        }
    }

    /// Whether a drawn word refuses a store-conditional: if its upper half is a multiple of n, for
    /// a chance of one in n.
    #[tactic(auto, unfolding(crate::specs::Refusing::is_refused))]
    pub fn refuses(self, word: u32) -> bool
        ensures { result ≡ is_refused self word }
    {
        match self {
            Refusals::Never => false,
            Refusals::OneIn(chance) => is_multiple(word / 65536, chance),
        }
    }
}

impl Rule for Refusals {
    ghost refused = { is_refused };

    #[inline]
    fn does_refuse(self, word: u32) -> bool {
        self.refuses(word)
    }
}

/// The rule of the usual refusals, which most campaigns have. It asks for no chance at each step.
#[derive(Clone, Copy, Drop)]
pub(crate) struct OneIn16;

impl Rule for OneIn16 {
    ghost refused = { λ _ word. word / 65536 % 16 == 0 };

    #[inline]
    fn does_refuse(self, word: u32) -> bool {
        word / 65536 % 16 == 0
    }
}

// Whether a number is a multiple of n, for a chance of one in n. For the usual 16 this is a mask: a
// division by a number that the compiler doesn't know takes ten times as long.
fn is_multiple(number: u32, chance: Chance) -> bool
    ensures { result ≡ (number % chance.one_in == 0) }
{
    match chance.one_in() {
        16 => number % 16 == 0,
        one_in => number % one_in == 0,
    }
}
