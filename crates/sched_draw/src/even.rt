//! Choices drawn evenly from all harts, one word each.

ghost use Rattle.std.specs.Prelude.{◌≡◌, ◌<◌, ◌%◌};
ghost use Rattle.sched_draw.specs.Seeds.{generator_of};

use crate::chooser::Drawer;
use crate::refusals::Refusals;
use machine::Choice;
use rand_core::SeedableRng;
use rand_core::utils::NextWord;
use rand_pcg::Lcg64Xsh32;
use std::ops::Range;

/// The generator that a seed starts.
#[tactic(auto, unfolding(crate::specs::Seeds::generator_of))]
pub fn seeded_generator(seed: u64) -> Lcg64Xsh32
    ensures { result ≡ generator_of seed }
{
    Lcg64Xsh32::seed_from_u64(seed)
}

// The hart of a word: the remainder by the number of harts, which is not 0.
#[inline(always)]
fn hart_of_word(word: u32, harts: u32) -> u32
    requires { 0 < harts }
    ensures { result ≡ word % harts }
{
    // For a power of two this is a mask. A division by a number that the compiler doesn't know
    // takes ten times as long, and the next step waits for it.
    match harts {
        2 => word % 2,
        4 => word % 4,
        8 => word % 8,
        16 => word % 16,
        32 => word % 32,
        _ => word % harts,
    }
}

/// Draws each choice from all harts; one in 16 refuses its store-conditional: if `(word div 65536)
/// mod 16` is 0.
#[derive(Drop)]
pub(crate) struct Usual {
    harts: u32,
    generator: Lcg64Xsh32,
    ghost some: { 0 < harts },
}

impl Usual {
    /// The state at a seed.
    pub(crate) fn new(harts: u32, seed: u64) -> Usual
        requires { 0 < harts }
        ensures harts { result.harts ≡ harts }
        ensures begun { result.generator ≡ generator_of seed }
    {
        Usual {
            harts,
            generator: seeded_generator(seed),
        }
    }
}

impl Drawer for Usual {
    ghost use Rattle.sched_draw.specs.Seeds.{usual_choices_drawn};
    ghost use Rattle.sched_draw.specs.NoSteps.{no_usual};

    ghost drawn = { λ u _ n. usual_choices_drawn u.harts n u.generator };

    ghost harts = { λ u. u.harts };

    ghost none = { λ u _. no_usual u.harts u.generator };

    #[inline(always)]
    fn draw(&mut self, _step: u64) -> Choice {
        let word = self.generator.next_word();
        Choice {
            hart: hart_of_word(word, self.harts),
            refuse: word / 65536 % 16 == 0,
        }
    }

    fn span(&self) -> Range<u32> {
        0..self.harts
    }
}

/// Draws each choice from all harts; it refuses its store-conditional if the refusals say so for
/// its word.
#[derive(Drop)]
pub(crate) struct Even {
    harts: u32,
    refusals: Refusals,
    generator: Lcg64Xsh32,
    ghost some: { 0 < harts },
}

impl Even {
    /// The state at a seed, with these refusals.
    pub(crate) fn new(harts: u32, refusals: Refusals, seed: u64) -> Even
        requires { 0 < harts }
        ensures harts { result.harts ≡ harts }
        ensures refusals { result.refusals ≡ refusals }
        ensures begun { result.generator ≡ generator_of seed }
    {
        Even {
            harts,
            refusals,
            generator: seeded_generator(seed),
        }
    }
}

impl Drawer for Even {
    ghost use Rattle.sched_draw.specs.Refusing.{even_choices_drawn};
    ghost use Rattle.sched_draw.specs.NoSteps.{no_even};

    ghost drawn = { λ e _ n. even_choices_drawn e.refusals e.harts n e.generator };

    ghost harts = { λ e. e.harts };

    ghost none = { λ e _. no_even e.refusals e.harts e.generator };

    #[inline(always)]
    fn draw(&mut self, _step: u64) -> Choice {
        let word = self.generator.next_word();
        Choice {
            hart: hart_of_word(word, self.harts),
            refuse: self.refusals.refuses(word),
        }
    }

    fn span(&self) -> Range<u32> {
        0..self.harts
    }
}
