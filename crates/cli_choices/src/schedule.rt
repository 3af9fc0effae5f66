//! Runs `schedule`.

ghost use Rattle.std.specs.Prelude.{◌≡◌};

use byte_io::Status;
use cli_args::read_word;
use cli_orders::ScheduleOrder;
use cli_report::{Audience, RunFiles, bad_line, inputs_said, open_one, print_answer, say, say_why};
use cli_values::{
    DRAWS, NO_POINTS, OrderFault, Plan, PlanFault, REFUSALS, read_draw, read_order, read_refusals,
    read_schedule, read_seed_plan, schedule_engine, seed_engine,
};
use sched_draw::{ChangePoints, Draw, Order};
use std::rt::Files;

const NUMBERS: &str =
    "--harts and --steps take decimal numbers, and one of --seed S, --turns and --only H says how the choices are made, \
                       as --harts 2 --steps 40 --seed 5";

const OF_A_RUN: &str =
    "--schedule priorities:DEPTH and mixed take --seed, and --inputs and a program, whose run the choices are of, \
                        as --seed 5 --schedule priorities:3 --inputs 7,9 swap.elf";

const MEAN: &str =
    "--schedule bursts:MEAN takes a decimal number from 1 to 2147483648, as bursts:100";

// What is wrong with a line that has options for a seed's draw, but no seed.
fn why_no_seed(order: &ScheduleOrder) -> Option<&'static str> {
    match (order.seed, order.draw, order.refusals) {
        (None, Some(_), _) => Some(
            "--schedule says how the choices of a seed are drawn, as --seed 5 --schedule bursts:100",
        ),
        (None, None, Some(_)) => Some(
            "--refusals says how often the choices of a seed refuse a store-conditional, as --seed 5 --refusals one-in:4",
        ),
        _ => None,
    }
}

// How a seed draws. A bad mean of bursts is not reported here, but after the refusals.
fn read_most_of_draw<R: Eprint>(rt: &R, order: &ScheduleOrder) -> Result<Draw, Status> {
    let said = read_order(order.draw);
    if matches!(said, Err(OrderFault::Unknown | OrderFault::BadDepth)) {
        return Err(bad_line(rt, DRAWS));
    }
    let Some(refusals) = read_refusals(order.refusals) else {
        return Err(bad_line(rt, REFUSALS));
    };
    Ok(Draw {
        order: said.unwrap_or(Order::Even),
        refusals,
        points: ChangePoints::Anywhere,
    })
}

// The plan of a schedule that is the same in each run, or the status of an invalid line.
fn read_plan<R: Eprint>(rt: &R, order: &ScheduleOrder) -> Result<Plan, Status> {
    let draw = read_most_of_draw(rt, order)?;
    if let Some(why) = why_no_seed(order) {
        return Err(bad_line(rt, why));
    }
    let is_drawn = order.draw.is_some() || order.refusals.is_some();
    let schedule = read_schedule(order.seed, order.turns, order.only, is_drawn, draw);
    let (Some(schedule), Some(harts), Some(steps)) = (
        schedule,
        read_word(order.harts),
        read_word(order.steps),
    ) else {
        return Err(bad_line(rt, NUMBERS));
    };
    if schedule.follows_run() {
        return Err(bad_line(rt, OF_A_RUN));
    }
    let plan = match Plan::new(harts, steps, schedule) {
        Ok(plan) => plan,
        Err(fault) => return Err(tell_plan(rt, fault)),
    };
    if read_order(order.draw).is_err() {
        return Err(bad_line(rt, MEAN));
    }
    Ok(plan)
}

// Reports why there is no plan.
fn tell_plan(rt: &impl Eprint, fault: PlanFault) -> Status
    ensures { result ≡ Status.BadLine }
{
    // If standard error is closed, only the status shows it.
    let _ = eprintln!(rt; "rvcons: {fault}");
    Status::BadLine
}

// The run whose choices are drawn.
#[derive(Clone, Copy, Drop)]
struct RunOrder<'a> {
    draw: Draw,
    seed: &'a str,
    inputs: &'a str,
    file: &'a str,
}

// Whether choices drawn in this way belong to a run.
fn is_of_a_run(draw: Option<&str>) -> bool {
    matches!(
        read_order(draw),
        Ok(Order::Priorities(_) | Order::Mixed) | Err(OrderFault::BadDepth)
    )
}

// The run whose choices an order asks for. There is one only by priorities or mixed, with a seed
// alone, inputs and a program.
fn run_of<'a, R: Eprint>(
    rt: &R,
    order: &ScheduleOrder<'a>,
) -> Result<Option<RunOrder<'a>>, Status> {
    if !is_of_a_run(order.draw) {
        if order.within.is_some() {
            return Err(bad_line(rt, NO_POINTS));
        }
        return match (order.inputs, order.file) {
            (None, None) => Ok(None),
            _ => Err(bad_line(
                rt,
                "--inputs and a program go with --schedule priorities:DEPTH or mixed",
            )),
        };
    }
    let draw = match read_draw(order.draw, order.refusals, order.within) {
        Ok(draw) => draw,
        Err(fault) => return Err(bad_line(rt, fault.text())),
    };
    match (
        order.seed,
        order.turns,
        order.only,
        order.inputs,
        order.file,
    ) {
        (Some(seed), false, None, Some(inputs), Some(file)) => Ok(Some(RunOrder {
            draw,
            seed,
            inputs,
            file,
        })),
        _ => Err(bad_line(rt, OF_A_RUN)),
    }
}

/// Prints the choice text of a schedule.
pub fn obey_schedule<R: Files + AllocGlobal + Print + Eprint>(
    rt: &R,
    audience: Audience,
    order: &ScheduleOrder,
) -> Result<Status, Status> {
    match run_of(rt, order)? {
        Some(run) => print_run_choices(rt, audience, order, run),
        None => print_plan(rt, order),
    }
}

// Prints the choice text of a schedule that is the same in each run.
fn print_plan<R: AllocGlobal + Print + Eprint>(
    rt: &R,
    order: &ScheduleOrder,
) -> Result<Status, Status> {
    let plan = read_plan(rt, order)?;
    match print_answer(rt, schedule_engine(rt.alloc(), plan)) {
        Ok(status) => Ok(status),
        Err(fault) => Err(say(rt, fault)),
    }
}

// Prints the choice text of a seed's choices in a run.
fn print_run_choices<R: Files + AllocGlobal + Print + Eprint>(
    rt: &R,
    audience: Audience,
    order: &ScheduleOrder,
    run: RunOrder,
) -> Result<Status, Status> {
    let inputs = inputs_said(rt, run.inputs)?;
    let Some(harts) = read_word(order.harts) else {
        return Err(bad_line(rt, NUMBERS));
    };
    if harts as usize != inputs.len() {
        return Err(bad_line(rt, "--inputs has an input for each of --harts"));
    }
    let Some(plan) = read_seed_plan(run.draw, order.steps, run.seed) else {
        return Err(bad_line(rt, NUMBERS));
    };
    let mut program = open_one(rt, audience, run.file)?;
    let answer = seed_engine(rt.alloc(), inputs.as_slice(), plan, &mut program);
    let files = RunFiles::of_program(run.file, inputs.len());
    match print_answer(rt, answer) {
        Ok(status) => Ok(status),
        Err(fault) => Err(say_why(rt, audience, files, fault)),
    }
}
