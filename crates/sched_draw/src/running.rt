//! A machine's run under a schedule.

ghost use Rattle.std.specs.Prelude.{◌≡◌, ℕ, ◌-◌, ◌<◌, ◌≤◌, true, false, List, IfOk, length, map};
ghost use Rattle.hart_step.specs.Hart.{hart_of};
ghost use Rattle.sched_run.specs.Chosen.{harts_of};
ghost use Rattle.machine.specs.Running.{runs};
ghost use Rattle.machine.specs.Machine.{world};
ghost use Rattle.machine.specs.World.{World};
ghost use Rattle.machine.specs.declared.choice.Choice.{Choice};
ghost use Rattle.hart_reservations.specs.Limit.{most_harts};
ghost use Rattle.sched_draw.specs.Partway.{Partway};
ghost use Rattle.sched_draw.specs.Schedules.{choices_of, drawn_choices, is_mixed, is_of_harts, RanOver};

use crate::bursts::Bursts;
use crate::chooser::{Chooser, Same};
use crate::even::{Even, Usual};
use crate::mixed::draw_of_seed;
use crate::order::Order;
use crate::priorities::ByPriorities;
use crate::schedule::{Draw, Schedule};
use crate::turns::{Alone, Turns};
use hart_step::Hart;
use machine::{Machine, runs};
use mem_store::Store;
use sched_run::Chosen;
use std::alloc::{AllocError, Allocator};
use std::ops::Range;

// The number of steps between two looks whether the run is over: few are wasted at its end, and a
// look takes a small part of the time of so many.
const STRETCH: u64 = 1024;

/// Runs a machine under a schedule, and returns which harts were chosen. Each choice is made when
/// its step comes, so the list is never held. The only error is out of memory; the machine has then
/// done a part of the run.
pub fn run_schedule<S: Store, A: Allocator + Copy>(
    alloc: A,
    machine: &mut Machine<S, A>,
    schedule: Schedule,
    harts: u32,
    steps: u64,
) -> Result<Chosen, AllocError>
    requires of { is_of_harts schedule harts ≡ true }
    requires few { harts ≤ most_harts }
    requires there { length (world S.memory machine.old).harts ≡ harts }
    ensures { IfOk result (λ chosen. RanOver (choices_of schedule (world S.memory machine.old) harts steps)
        (world S.memory machine.old) (world S.memory machine.new) (harts_of chosen)) }
{
    match schedule {
        Schedule::Turns => run_by(machine, Same(Turns::new(harts)), steps),
        Schedule::Only(hart) => run_by(machine, Same(Alone::new(hart, harts)), steps),
        Schedule::Seeded { seed, draw } => run_drawn(alloc, machine, draw, harts, steps, seed),
    }
}

// As `run_schedule`, for choices that a seed draws.
#[tactic(auto, unfolding(crate::specs::Schedules::drawn_choices))]
fn run_drawn<S: Store, A: Allocator + Copy>(
    alloc: A,
    machine: &mut Machine<S, A>,
    draw: Draw,
    harts: u32,
    steps: u64,
    seed: u64,
) -> Result<Chosen, AllocError>
    requires some { 0 < harts }
    requires few { harts ≤ most_harts }
    requires there { length (world S.memory machine.old).harts ≡ harts }
    ensures { IfOk result (λ chosen. RanOver (drawn_choices draw (world S.memory machine.old) harts steps seed)
        (world S.memory machine.old) (world S.memory machine.new) (harts_of chosen)) }
{
    run_in_order(alloc, machine, draw_of_seed(draw, seed), harts, steps, seed)
}

// As `run_drawn`, for an order that isn't mixed. Even choices with the usual refusals have a drawer
// of their own, since a step of theirs takes 13 host instructions less than one for any refusals.
#[tactic(auto, unfolding(crate::specs::Schedules::drawn_choices))]
fn run_in_order<S: Store, A: Allocator + Copy>(
    alloc: A,
    machine: &mut Machine<S, A>,
    draw: Draw,
    harts: u32,
    steps: u64,
    seed: u64,
) -> Result<Chosen, AllocError>
    requires one { is_mixed draw.order ≡ false }
    requires some { 0 < harts }
    requires few { harts ≤ most_harts }
    requires there { length (world S.memory machine.old).harts ≡ harts }
    ensures { IfOk result (λ chosen. RanOver (drawn_choices draw (world S.memory machine.old) harts steps seed)
        (world S.memory machine.old) (world S.memory machine.new) (harts_of chosen)) }
{
    let refusals = draw.refusals;
    match draw.order {
        Order::Even => {
            if refusals.is_usual() {
                run_by(machine, Same(Usual::new(harts, seed)), steps)
            } else {
                run_by(machine, Same(Even::new(harts, refusals, seed)), steps)
            }
        }
        Order::Bursts(mean) => run_by(machine, Bursts::new(harts, mean, refusals, seed), steps),
        Order::Priorities(depth) => {
            let places = draw.points.places(steps);
            let chooser = ByPriorities::new(alloc, harts, depth, refusals, places, seed)?;
            run_by(machine, chooser, steps)
        }
        Order::Mixed => unreachable!(),
    }
}

// Runs a machine over a chooser's choices, each made when its step comes. It ends early where the
// harts of all later choices have stopped and were chosen.
fn run_by<S: Store, A: Allocator, C: Chooser>(
    machine: &mut Machine<S, A>,
    chooser: C,
    steps: u64,
) -> Result<Chosen, AllocError>
    requires few { length (world S.memory machine.old).harts ≤ most_harts }
    requires chooses { C.IsFor chooser (length (world S.memory machine.old).harts) }
    ensures { IfOk result (λ chosen. RanOver (C.choices chooser 0 steps (world S.memory machine.old))
        (world S.memory machine.old) (world S.memory machine.new) (harts_of chosen)) }
{
    let mut chooser = chooser;
    let mut chosen = Chosen::new();
    let mut from = 0;
    'stretches: while from < steps {
        let to = from + (steps - from).min(STRETCH);
        chooser.run(machine, &mut chosen, from, to)?;
        if is_over(
            chooser.span(machine.harts() as u32),
            machine.ends(),
            &chosen,
        ) {
            return Ok(chosen);
        }
        from = to;
    }
    Ok(chosen)
}

// Whether each of these harts has stopped and was chosen: no choice of them does more. Inlined it
// would take registers from the steps.
#[inline(never)]
fn is_over(span: Range<u32>, harts: &[Hart], chosen: &Chosen) -> bool
    requires { span.end ≤ most_harts }
    ensures { result ≡ true → (hart : ℕ) → span.start ≤ hart → hart < span.end
        → (runs (map hart_of harts.now) hart ≡ false) × (harts_of chosen.now hart ≡ true) }
{
    'harts: for hart in span.start..span.end {
        if runs(harts, hart) || !chosen.has(hart as usize) {
            return false;
        }
    }
    true
}
