//! Tests what no clause says of schedules: examples. `tests/schedules` runs the texts of seeds
//! beside their campaigns.
use cmd_schedule::{Plan, PlanFault, schedule_engine};
use sched_draw::{Draw, Schedule};
use std::alloc::Global;

// What makes the choices of a list.
#[derive(Clone, Copy)]
enum By {
    Turns,
    Only(u32),
    // A seed, with the usual refusals.
    Seed(u64),
}

// The text of a list, or the fault of its plan; `None` if out of memory.
fn scheduled(
    alloc: Global,
    harts: u32,
    steps: u32,
    by: By,
) -> Option<Result<String<Global>, PlanFault>> {
    let schedule = match by {
        By::Turns => Schedule::Turns,
        By::Only(hart) => Schedule::Only(hart),
        By::Seed(seed) => Schedule::Seeded {
            seed,
            draw: Draw::usual(),
        },
    };
    if schedule.follows_run() {
        return None;
    }
    match Plan::new(harts, steps, schedule) {
        Ok(plan) => {
            let (text, _) = schedule_engine(alloc, plan).ok()?;
            Some(Ok(text))
        }
        Err(fault) => Some(Err(fault)),
    }
}

// A plan: harts, steps and what makes the choices; and the printed list, or the fault, with nothing
// printed.
struct Worked {
    harts: u32,
    steps: u32,
    by: By,
    answer: Result<&'static str, PlanFault>,
}

// The words of the seeds were drawn by a generator written independently, from PCG's paper and
// `rand_core`'s rule.
#[rattlefmt::skip]
const WORKED: [Worked; 8] = [
    Worked { harts: 32, steps: 2, by: By::Only(31), answer: Ok("31 31\n") },
    Worked { harts: 2, steps: 20, by: By::Seed(2), answer: Ok("0 1! 1 0 0 1 1 1 0 0 1 0 1 0 0 1! 1 0 0 0\n") },
    Worked { harts: 2, steps: 12, by: By::Seed(1), answer: Ok("0 0 1 0 1 0 0 0 0 0 1 0\n") },
    Worked { harts: 3, steps: 12, by: By::Seed(u64::MAX), answer: Ok("1 1 1 1 2 2 2 1 2 0 2 2!\n") },
    Worked { harts: 33, steps: 3, by: By::Seed(1), answer: Err(PlanFault::BadHarts) },
    Worked { harts: 0, steps: 3, by: By::Only(0), answer: Err(PlanFault::BadHarts) },
    Worked { harts: 2, steps: 3, by: By::Only(2), answer: Err(PlanFault::NoHart) },
    Worked { harts: 32, steps: 0, by: By::Only(u32::MAX), answer: Err(PlanFault::NoHart) },
];

// Whether a list is printed, or its plan is invalid, as expected.
fn is_worked(alloc: Global, row: &Worked) -> bool {
    match (scheduled(alloc, row.harts, row.steps, row.by), row.answer) {
        (Some(Ok(text)), Ok(wanted)) => text.as_str() == wanted,
        (Some(Err(fault)), Err(wanted)) => fault == wanted,
        _ => false,
    }
}

#[test]
fn schedules_are_printed_or_refused(rt: HostRuntime) {
    for (number, row) in WORKED.iter().enumerate() {
        assert!(rt; is_worked(rt.alloc(), row), "{number}");
    }
}
