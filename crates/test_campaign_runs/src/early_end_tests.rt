//! Runs under each kind of schedule, with few steps and with very many: they end alike, and a run
//! ends in time where no hart can do more, which no clause says.
use crate::plans::{Order, draw_of};
use machine::{Inputs, Machine};
use mem_flat::FlatStore;
use object_library::Kind;
use outcome::{Exit, Expect, Outcome};
use sched_draw::{Schedule, run_schedule};
use std::alloc::Global;
use test_images::{CONDITIONAL, writable_program};

// More steps than both harts take.
const FEW: u64 = 3_000;

// More steps than can be taken one by one while a test runs.
const MANY: u64 = 1_000_000_000_000_000;

// The verdict needs the harts that were chosen.
const EXPECTED: Expect = Expect {
    rule: Some(Kind::LrSc),
    exit: Exit::May,
};

// How a run of two harts under a schedule ends.
fn outcome_after(alloc: Global, schedule: Schedule, steps: u64) -> Option<Outcome> {
    let image = writable_program(alloc, &CONDITIONAL).ok()?;
    let inputs = Inputs::new(&[7, 9]).ok()?;
    let harts = inputs.harts();
    if !schedule.is_of_harts(harts) {
        return None;
    }
    let mut machine: Machine<FlatStore<Global>, Global> = Machine::start(
        alloc, &image, &inputs,
    ).ok()?;
    let chosen = run_schedule(alloc, &mut machine, schedule, harts, steps).ok()?;
    EXPECTED
        .judge(alloc, inputs.words(), &chosen, machine.ends())
        .ok()
}

// Whether few steps and many end alike.
fn ends_alike(alloc: Global, schedule: Schedule) -> bool {
    let few = outcome_after(alloc, schedule, FEW);
    let many = outcome_after(alloc, schedule, MANY);
    match (few, many) {
        (Some(few), Some(many)) => few == many,
        _ => false,
    }
}

// The same for a seed that draws by an order.
fn seed_ends_alike(alloc: Global, order: Order) -> bool {
    match draw_of(order) {
        Some(draw) => ends_alike(alloc, Schedule::Seeded { seed: 5, draw }),
        None => false,
    }
}

// A hart alone stops while the other one doesn't.
const UNDRAWN: [Schedule; 3] = [Schedule::Turns, Schedule::Only(0), Schedule::Only(1)];

const DRAWN: [Order; 5] = [
    Order::Usual,
    Order::Never,
    Order::Bursts,
    Order::Priorities,
    Order::Mixed,
];

#[test]
fn undrawn_schedules_end_early(rt: HostRuntime) {
    for schedule in &UNDRAWN {
        assert!(rt; ends_alike(rt.alloc(), *schedule));
    }
}

#[test]
fn drawn_schedules_end_early(rt: HostRuntime) {
    for order in &DRAWN {
        assert!(rt; seed_ends_alike(rt.alloc(), *order));
    }
}
