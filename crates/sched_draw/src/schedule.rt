//! Schedules.

ghost use Rattle.std.specs.Prelude.{◌≡◌};
ghost use Rattle.sched_draw.specs.Schedules.{follows_run, is_of_harts};

use crate::change_points::ChangePoints;
use crate::order::Order;
use crate::refusals::Refusals;

/// How a seed draws the choices of a schedule.
#[derive(Clone, Copy, Drop)]
pub struct Draw {
    /// Which hart each choice is of.
    pub order: Order,
    /// Which choices refuse their store-conditional.
    pub refusals: Refusals,
    /// Where change points lie.
    pub points: ChangePoints,
}

impl Draw {
    ghost use Rattle.sched_draw.specs.Refusing.{IsOneIn};
    ghost use Rattle.sched_draw.specs.declared.change_points.ChangePoints.TheVariants.{Anywhere};
    ghost use Rattle.sched_draw.specs.declared.order.Order.TheVariants.{Even};

    /// Even, with one refusal in 16: the default. Change points may lie anywhere.
    pub fn usual() -> Draw
        ensures order { result.order ≡ Even }
        ensures refusals { IsOneIn 16 result.refusals }
        ensures points { result.points ≡ Anywhere }
    {
        Draw {
            order: Order::Even,
            refusals: Refusals::usual(),
            points: ChangePoints::Anywhere,
        }
    }
}

/// A schedule.
#[derive(Clone, Copy, Drop)]
pub enum Schedule {
    /// The harts in turn, from hart 0 on; no store-conditional is refused.
    Turns,
    /// This hart alone, numbered from 0; no store-conditional is refused.
    Only(u32),
    /// Drawn from a seed.
    Seeded {
        /// The seed.
        seed: u64,
        /// How it draws.
        draw: Draw,
    },
}

impl Schedule {
    /// Whether the choices depend on the run.
    pub fn follows_run(self) -> bool
        ensures { result ≡ follows_run self }
    {
        match self {
            Schedule::Turns | Schedule::Only(_) => false,
            Schedule::Seeded { draw, .. } => draw.order.follows(),
        }
    }

    /// Whether it is a schedule for this number of harts: there is at least one, and the named one
    /// exists.
    pub fn is_of_harts(self, harts: u32) -> bool
        ensures { result ≡ is_of_harts self harts }
    {
        match self {
            Schedule::Turns | Schedule::Seeded { .. } => 0 < harts,
            Schedule::Only(hart) => hart < harts,
        }
    }
}
