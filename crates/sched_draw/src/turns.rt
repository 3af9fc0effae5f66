//! Schedules without draws: the harts in turn, and one hart alone.

ghost use Rattle.std.specs.Prelude.{◌≡◌, ◌<◌, refl};

use crate::chooser::Drawer;
use machine::Choice;
use std::ops::Range;

/// The harts in turn: hart `i mod harts` takes step `i`, and no store-conditional is refused.
#[derive(Drop)]
pub(crate) struct Turns {
    harts: u32,
    ghost some: { 0 < harts },
}

impl Turns {
    /// Turns of `harts` harts.
    pub(crate) fn new(harts: u32) -> Turns
        requires { 0 < harts }
        ensures { result.harts ≡ harts }
    {
        Turns { harts }
    }
}

impl Drawer for Turns {
    ghost use Rattle.sched_draw.specs.Turns.{turns_from};

    ghost drawn = { λ t step n. turns_from step t.harts n };

    ghost harts = { λ t. t.harts };

    ghost none = { λ t step. refl };

    #[inline(always)]
    fn draw(&mut self, step: u64) -> Choice {
        Choice {
            hart: (step % u64::from(self.harts)) as u32,
            refuse: false,
        }
    }

    fn span(&self) -> Range<u32> {
        0..self.harts
    }
}

/// One hart takes all steps, and no store-conditional is refused.
#[derive(Drop)]
pub(crate) struct Alone {
    hart: u32,
    harts: u32,
    ghost there: { hart < harts },
}

impl Alone {
    /// A hart alone, of `harts` harts.
    pub(crate) fn new(hart: u32, harts: u32) -> Alone
        requires { hart < harts }
        ensures hart { result.hart ≡ hart }
        ensures harts { result.harts ≡ harts }
    {
        Alone { hart, harts }
    }
}

impl Drawer for Alone {
    ghost use Rattle.sched_draw.specs.Turns.{alone_from};

    ghost drawn = { λ a step n. alone_from step a.hart n };

    ghost harts = { λ a. a.harts };

    ghost none = { λ a step. refl };

    #[inline(always)]
    fn draw(&mut self, _step: u64) -> Choice {
        Choice {
            hart: self.hart,
            refuse: false,
        }
    }

    fn span(&self) -> Range<u32> {
        self.hart..self.hart + 1
    }
}
