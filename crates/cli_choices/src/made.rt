//! The choice texts of seeds, turns and histories.

use crate::expansion::expand_history;
use byte_io::{ReadFault, Status, read_all};
use cli_args::{SeedText, read_number, read_word};
use cli_report::{
    Audience, RunChoices, RunFiles, bad_line, cannot_read, open_one, out_of_memory, say, say_why,
};
use cli_values::{Plan, SeedPlan, read_draw, schedule_engine, seed_engine};
use hart_reservations::MAX_HARTS;
use history::{Entry, HistoryFault, read_history};
use program_open::{CommandFault, ProgramForm};
use sched_draw::Schedule;
use sched_text::print_choices;
use std::alloc::{AllocError, Global};
use std::rt::Files;

const SEED: &str =
    "--seed and --steps take decimal numbers, below 2^64 and below 2^32, as --seed 5 --steps 300";

const TURNS: &str = "--turns takes a number of choices, in decimal and below 2^32, as --turns 300";

const OF_ELF: &str = "--schedule priorities:DEPTH and mixed take an ELF file";

/// The run that takes the choices.
#[derive(Clone, Copy)]
pub(crate) struct Run<'a> {
    /// The program's path.
    pub(crate) file: &'a str,
    /// What the file has.
    pub(crate) form: ProgramForm,
    /// The harts' inputs.
    pub(crate) inputs: &'a [u32],
}

impl<'a> Run<'a> {
    // The number of harts; `None` if there can be no such run, which the run itself reports.
    fn harts(self) -> Option<u32> {
        let harts = self.inputs.len();
        if harts > MAX_HARTS {
            return None;
        }
        Some(harts as u32)
    }
}

// The text of a schedule that is the same in each run, for so many harts.
fn plan_text<R: AllocGlobal + Eprint>(
    rt: &R,
    run: Run<'_>,
    steps: u32,
    schedule: Schedule,
) -> Result<String<Global>, Status> {
    if schedule.follows_run() {
        return Err(bad_line(rt, OF_ELF));
    }
    let Some(harts) = run.harts() else {
        return Ok(String::new(rt.alloc()));
    };
    let Ok(plan) = Plan::new(harts, steps, schedule) else {
        return Ok(String::new(rt.alloc()));
    };
    match schedule_engine(rt.alloc(), plan) {
        Ok((text, _)) => Ok(text),
        Err(fault) => Err(say(rt, fault)),
    }
}

// The text of a seed's choices in a run.
fn run_text<R: Files + AllocGlobal + Eprint>(
    rt: &R,
    audience: Audience,
    run: Run<'_>,
    plan: SeedPlan,
) -> Result<String<Global>, Status> {
    let mut program = open_one(rt, audience, run.file)?;
    match seed_engine(rt.alloc(), run.inputs, plan, &mut program) {
        Ok((text, _)) => Ok(text),
        Err(fault) => {
            let files = RunFiles::of_program(run.file, run.inputs.len());
            Err(say_why(rt, audience, files, fault))
        }
    }
}

/// The text of the choices that a seed draws, or the report of what is invalid. By priorities
/// and mixed they are those of a run of the program, which is read for them.
pub(crate) fn seed_text<R: Files + AllocGlobal + Eprint>(
    rt: &R,
    audience: Audience,
    run: Run<'_>,
    said: SeedText<'_>,
) -> Result<String<Global>, Status> {
    let draw = match read_draw(said.draw, said.refusals, said.within) {
        Ok(draw) => draw,
        Err(fault) => return Err(bad_line(rt, fault.text())),
    };
    let (Ok(seed), Some(steps)) = (read_number(said.seed, u64::MAX), read_word(said.steps)) else {
        return Err(bad_line(rt, SEED));
    };
    if draw.order.follows() && run.form == ProgramForm::Elf {
        let steps = u64::from(steps);
        return run_text(rt, audience, run, SeedPlan { draw, steps, seed });
    }
    plan_text(rt, run, steps, Schedule::Seeded { seed, draw })
}

/// The text of so many choices of harts that take turns, or the report of a bad number.
pub(crate) fn turns_text<R: AllocGlobal + Eprint>(
    rt: &R,
    run: Run<'_>,
    steps: &str,
) -> Result<String<Global>, Status> {
    let Some(steps) = read_word(steps) else {
        return Err(bad_line(rt, TURNS));
    };
    plan_text(rt, run, steps, Schedule::Turns)
}

// The history in a file, or the report of why there is none.
fn history_said<R: Files + AllocGlobal + Eprint>(
    rt: &R,
    audience: Audience,
    run: Run<'_>,
    harts: u32,
    path: &str,
) -> Result<Vec<Entry>, Status> {
    let bytes = match read_all(rt.alloc(), &mut open_one(rt, audience, path)?) {
        Ok(bytes) => bytes,
        Err(ReadFault::Device) => return Err(cannot_read(rt, path)),
        Err(ReadFault::Memory) => return Err(out_of_memory(rt)),
    };
    let fault = match read_history(rt.alloc(), &bytes, harts) {
        Ok(history) => return Ok(history),
        Err(HistoryFault::BadEntry(at)) => CommandFault::BadEntry(at),
        Err(HistoryFault::NoHart(at)) => CommandFault::NoHartOfEntry(at),
        Err(HistoryFault::Memory) => CommandFault::Memory,
    };
    let files = RunFiles {
        program: run.file,
        form: run.form,
        choices: RunChoices::File(path),
        harts: run.inputs.len(),
    };
    Err(say_why(rt, audience, files, fault))
}

// The choice text of the choices that a history stands for.
fn text_of(alloc: Global, history: &[Entry]) -> Result<String<Global>, AllocError> {
    let choices = expand_history(alloc, history)?;
    print_choices(alloc, &choices)
}

/// The text of the choices of the history in a file, or the report of why there are none.
pub(crate) fn history_text<R: Files + AllocGlobal + Eprint>(
    rt: &R,
    audience: Audience,
    run: Run<'_>,
    path: &str,
) -> Result<String<Global>, Status> {
    let Some(harts) = run.harts() else {
        return Ok(String::new(rt.alloc()));
    };
    let history = history_said(rt, audience, run, harts, path)?;
    match text_of(rt.alloc(), &history) {
        Ok(text) => Ok(text),
        Err(AllocError) => Err(out_of_memory(rt)),
    }
}
