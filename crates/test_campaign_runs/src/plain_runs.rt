//! The runs of plain machines over the lists of seeds.
ghost use Rattle.std.specs.Prelude.{◌<◌};

use crate::plans::{Order, draw_of};
use campaign_runs::Ending;
use hart_step::{Hart, HartState};
use image::Image;
use machine::{Choice, Inputs, Machine};
use mem_flat::FlatStore;
use outcome::Outcome;
use sched_draw::{Schedule, list_schedule};
use std::alloc::{AllocError, Global};

// The list of a seed's choices; none by priorities or mixed, since these depend on the run.
fn choices_of(
    alloc: Global,
    order: Order,
    harts: u32,
    steps: u32,
    seed: u64,
) -> Option<Vec<Choice, Global>>
    requires { 0 < harts }
{
    let schedule = Schedule::Seeded {
        seed,
        draw: draw_of(order)?,
    };
    if schedule.follows_run() {
        return None;
    }
    list_schedule(alloc, schedule, harts, u64::from(steps)).ok()
}

// Takes the steps of choices, and tells whether each was taken.
fn are_stepped(machine: &mut Machine<FlatStore<Global>, Global>, choices: &[Choice]) -> bool {
    for choice in choices {
        if (choice.hart as usize) < machine.harts() && machine.step(*choice).is_err() {
            return false;
        }
    }
    true
}

// How many harts ended in each way, where no rule is judged.
fn outcome_of(harts: &[Hart]) -> Outcome {
    let mut exited = 0usize;
    let mut faulted = 0usize;
    let mut running = 0usize;
    for hart in harts {
        match hart.state {
            HartState::Exited(_) => exited = exited.saturating_add(1),
            HartState::Faulted(_) => faulted = faulted.saturating_add(1),
            HartState::Running => running = running.saturating_add(1),
        }
    }
    Outcome {
        exited,
        faulted,
        running,
        verdict: None,
    }
}

// What each hart that has exited left, as a report of outcomes says it.
fn words_of(alloc: Global, harts: &[Hart]) -> Result<String<Global>, AllocError> {
    let mut words = String::new(alloc);
    for (number, hart) in harts.iter().enumerate() {
        let a0 = hart.registers[10];
        let a1 = hart.registers[11];
        if let HartState::Exited(_) = hart.state {
            write!(words, " {number}:a0={a0:08x} {number}:a1={a1:08x}")?;
        }
    }
    Ok(words)
}

/// How a plain machine's run over the list of a seed's choices ended; none where memory is refused,
/// or there is no list.
pub(crate) fn plain_ending(
    alloc: Global,
    image: &Image<Global>,
    inputs: &[u32],
    order: Order,
    steps: u32,
    seed: u64,
) -> Option<Ending<Global>> {
    let inputs = Inputs::new(inputs).ok()?;
    let choices = choices_of(alloc, order, inputs.harts(), steps, seed)?;
    let mut machine: Machine<FlatStore<Global>, Global> = Machine::start(
        alloc, image, &inputs,
    ).ok()?;
    if !are_stepped(&mut machine, choices.as_slice()) {
        return None;
    }
    let words = words_of(alloc, machine.ends()).ok()?;
    Some(Ending {
        outcome: outcome_of(machine.ends()),
        properties: None,
        hangs: None,
        words,
    })
}
