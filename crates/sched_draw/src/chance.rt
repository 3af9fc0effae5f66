//! The chance that a choice refuses its store-conditional.

ghost use Rattle.std.specs.Prelude.{◌≡◌, ◌<◌, ◌≤◌, ◌⊎◌, MatchOption};
ghost use Rattle.sched_draw.specs.Limits.{most_one_in};

/// The least chance is one in this: an upper half of a word has as many values.
pub const MOST_ONE_IN: u32 = 65_536;

/// The chance that a choice refuses its store-conditional: one in 1 to `MOST_ONE_IN`.
#[derive(Clone, Copy, Drop)]
pub struct Chance {
    one_in: u32,
    ghost within: { (0 < one_in) × (one_in ≤ most_one_in) },
}

impl Chance {
    /// A chance of one in `one_in`; `None` exactly if that is 0 or greater than `MOST_ONE_IN`.
    pub fn new(one_in: u32) -> Option<Chance>
        ensures { MatchOption result ((one_in ≡ 0) ⊎ (most_one_in < one_in)) (λ chance. chance.one_in ≡ one_in) }
    {
        if one_in == 0 || one_in > MOST_ONE_IN {
            return None;
        }
        Some(Chance { one_in })
    }

    /// The chance is one in this.
    pub fn one_in(self) -> u32
        ensures is { result ≡ self.one_in }
        ensures some { 0 < result }
        ensures most { result ≤ most_one_in }
    {
        self.one_in
    }

    /// One in 16.
    pub fn one_in_16() -> Chance
        ensures { result.one_in ≡ 16 }
    {
        Chance { one_in: 16 }
    }
}
