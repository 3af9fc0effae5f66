//! The choices of a schedule as a list.

ghost use Rattle.std.specs.Prelude.{◌≡◌, ◌<◌, true, false, IfOk, length};
ghost use Rattle.std.specs.List.{All};
ghost use Rattle.machine.specs.Machine.{world};
ghost use Rattle.machine.specs.World.{World};
ghost use Rattle.sched_draw.specs.Drawn.{drawing_watched};
ghost use Rattle.sched_draw.specs.Priorities.{priority_choices_drawn};
ghost use Rattle.sched_draw.specs.Schedules.{choices_of, drawn_choices, follows, follows_run, is_mixed, is_of_harts, ordered_choices};
ghost use Rattle.sched_draw.specs.declared.change_points.ChangePoints.{ChangePoints};

use crate::bursts::Bursts;
use crate::chooser::Drawer;
use crate::even::Even;
use crate::mixed::draw_of_seed;
use crate::order::Order;
use crate::priorities::ByPriorities;
use crate::refusals::Refusals;
use crate::schedule::{Draw, Schedule};
use crate::turns::{Alone, Turns};
use machine::{Choice, Machine};
use mem_store::Store;
use std::alloc::{AllocError, Allocator};

/// The first `steps` choices of a schedule that is the same in each run. The only error is out of
/// memory.
#[tactic(auto, unfolding(crate::specs::Schedules::drawn_choices))]
pub fn list_schedule<A: Allocator>(
    alloc: A,
    schedule: Schedule,
    harts: u32,
    steps: u64,
) -> Result<Vec<Choice, A>, AllocError>
    requires of { is_of_harts schedule harts ≡ true }
    requires same { follows_run schedule ≡ false }
    ensures { IfOk result (λ choices. (w : World) → choices.items ≡ choices_of schedule w harts steps) }
{
    match schedule {
        Schedule::Turns => list_drawn(alloc, Turns::new(harts), steps),
        Schedule::Only(hart) => list_drawn(alloc, Alone::new(hart, harts), steps),
        Schedule::Seeded { seed, draw } => {
            list_in_order(alloc, draw.order, draw.refusals, harts, steps, seed)
        }
    }
}

// As `list_schedule`, for choices that a seed draws.
fn list_in_order<A: Allocator>(
    alloc: A,
    order: Order,
    refusals: Refusals,
    harts: u32,
    steps: u64,
    seed: u64,
) -> Result<Vec<Choice, A>, AllocError>
    requires some { 0 < harts }
    requires same { follows order ≡ false }
    ensures { IfOk result (λ choices. (w : World) (points : ChangePoints)
        → choices.items ≡ ordered_choices order points refusals w harts steps seed) }
{
    match order {
        Order::Even => list_drawn(alloc, Even::new(harts, refusals, seed), steps),
        Order::Bursts(mean) => {
            list_drawn(alloc, Bursts::new(harts, mean, refusals, seed), steps)
        }
        // These depend on the run.
        Order::Priorities(_) | Order::Mixed => unreachable!(),
    }
}

// The next choices of a drawer.
fn list_drawn<D: Drawer, A: Allocator>(
    alloc: A,
    drawer: D,
    steps: u64,
) -> Result<Vec<Choice, A>, AllocError>
    ensures { IfOk result (λ choices. choices.items ≡ D.drawn drawer 0 steps) }
{
    let mut drawer = drawer;
    let mut choices = Vec::with_capacity(alloc, steps as usize)?;
    'steps: for step in 0..steps {
        choices.push(drawer.draw(step))?;
    }
    Ok(choices)
}

/// The choices of a schedule in a machine's run. If they depend on the run, the machine has done
/// it. The only error is out of memory.
pub fn list_run<S: Store, A: Allocator + Copy>(
    alloc: A,
    machine: &mut Machine<S, A>,
    schedule: Schedule,
    harts: u32,
    steps: u64,
) -> Result<Vec<Choice, A>, AllocError>
    requires of { is_of_harts schedule harts ≡ true }
    requires there { length (world S.memory machine.old).harts ≡ harts }
    ensures { IfOk result (λ choices.
        choices.items ≡ choices_of schedule (world S.memory machine.old) harts steps) }
{
    match schedule {
        Schedule::Seeded { seed, draw } => list_drawn_run(alloc, machine, draw, harts, steps, seed),
        Schedule::Turns | Schedule::Only(_) => list_schedule(alloc, schedule, harts, steps),
    }
}

// As `list_run`, for choices that a seed draws.
#[tactic(auto, unfolding(crate::specs::Schedules::drawn_choices))]
fn list_drawn_run<S: Store, A: Allocator + Copy>(
    alloc: A,
    machine: &mut Machine<S, A>,
    draw: Draw,
    harts: u32,
    steps: u64,
    seed: u64,
) -> Result<Vec<Choice, A>, AllocError>
    requires some { 0 < harts }
    requires there { length (world S.memory machine.old).harts ≡ harts }
    ensures { IfOk result (λ choices.
        choices.items ≡ drawn_choices draw (world S.memory machine.old) harts steps seed) }
{
    list_ordered_run(alloc, machine, draw_of_seed(draw, seed), harts, steps, seed)
}

// As `list_drawn_run`, for an order that isn't mixed.
#[tactic(auto, unfolding(crate::specs::Schedules::drawn_choices))]
fn list_ordered_run<S: Store, A: Allocator + Copy>(
    alloc: A,
    machine: &mut Machine<S, A>,
    draw: Draw,
    harts: u32,
    steps: u64,
    seed: u64,
) -> Result<Vec<Choice, A>, AllocError>
    requires one { is_mixed draw.order ≡ false }
    requires some { 0 < harts }
    requires there { length (world S.memory machine.old).harts ≡ harts }
    ensures { IfOk result (λ choices.
        choices.items ≡ drawn_choices draw (world S.memory machine.old) harts steps seed) }
{
    match draw.order {
        Order::Even | Order::Bursts(_) => {
            list_in_order(alloc, draw.order, draw.refusals, harts, steps, seed)
        }
        Order::Priorities(depth) => {
            let places = draw.points.places(steps);
            let chooser = ByPriorities::new(alloc, harts, depth, draw.refusals, places, seed)?;
            list_by(alloc, machine, chooser, steps)
        }
        Order::Mixed => unreachable!(),
    }
}

// The choices by priorities of a machine's run, each made when its step comes.
fn list_by<S: Store, A: Allocator>(
    alloc: A,
    machine: &mut Machine<S, A>,
    chooser: ByPriorities<A>,
    steps: u64,
) -> Result<Vec<Choice, A>, AllocError>
    requires some { 0 < length (world S.memory machine.old).harts }
    requires there { All (λ h. h < length (world S.memory machine.old).harts)
        chooser.priorities.value.order.items }
    ensures { IfOk result (λ choices. choices.items ≡ priority_choices_drawn chooser.refusals 0 steps
        (drawing_watched chooser) (world S.memory machine.old)) }
{
    let mut chooser = chooser;
    let mut choices = Vec::with_capacity(alloc, steps as usize)?;
    'steps: for step in 0..steps {
        let choice = chooser.next(step, machine)?;
        machine.step(choice)?;
        choices.push(choice)?;
    }
    Ok(choices)
}
