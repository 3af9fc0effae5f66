//! The draw by which a seed of mixed schedules draws.

ghost use Rattle.std.specs.Prelude.{◌≡◌, ℕ, false};
ghost use Rattle.machine.specs.World.{World};
ghost use Rattle.sched_draw.specs.Mixed.{mixed_choices};
ghost use Rattle.sched_draw.specs.Schedules.{drawn_choices, is_mixed, ordered_choices};
ghost use Rattle.sched_draw.specs.declared.change_points.ChangePoints.{ChangePoints};
ghost use Rattle.sched_draw.specs.declared.refusals.Refusals.{Refusals};

use crate::order::{Depth, Mean, Order};
use crate::schedule::Draw;

/// The draw by which a seed draws. Its order isn't mixed, and it gives the same choices.
#[tactic(auto, unfolding(crate::specs::Schedules::drawn_choices))]
pub(crate) fn draw_of_seed(draw: Draw, seed: u64) -> Draw
    ensures same { (world : World) (harts steps : ℕ)
        → drawn_choices draw world harts steps seed ≡ drawn_choices result world harts steps seed }
    ensures one { is_mixed result.order ≡ false }
{
    match draw.order {
        Order::Even | Order::Bursts(_) | Order::Priorities(_) => draw,
        Order::Mixed => Draw {
            order: mixed_order(seed),
            refusals: draw.refusals,
            points: draw.points,
        },
    }
}

// The order by which a mixed seed draws.
fn mixed_order(seed: u64) -> Order
    ensures same { (points : ChangePoints) (refusals : Refusals) (world : World) (harts steps : ℕ)
        → mixed_choices world harts points refusals steps seed ≡ ordered_choices result points refusals world harts steps seed }
    ensures one { is_mixed result ≡ false }
{
    if seed % 3 == 0 {
        Order::Even
    } else if seed % 3 == 1 {
        Order::Bursts(Mean::of_mixed())
    } else {
        Order::Priorities(Depth::of_mixed())
    }
}
