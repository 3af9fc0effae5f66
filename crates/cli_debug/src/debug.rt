//! Runs `debug`.

ghost use Rattle.std.specs.Prelude.{◌-◌, ◌^◌, ◌<◌};

use crate::conversation::talk_to_person;
use byte_io::{Progress, ReaderSource, Source, Status};
use cli_orders::DebugOrder;
use cli_report::{
    Audience, RunChoices, RunFiles, StandardOutput, WIPE, inputs_said, open_run, say_why, wipe_line,
};
use cmd_debug::{DebugEngineFault, debug_engine};
use program_open::ProgramForm;
use std::io::{BufReader, Input};
use std::rt::Files;

// Shows a person how far the start of a session is.
#[derive(Drop)]
struct Line<'a, R> {
    rt: &'a R,
    audience: Audience,
}

impl<'a, R: Eprint> Progress for Line<'a, R> {
    fn choices_done(&mut self, done: u64, all: u64) {
        if !self.audience.sees_progress() {
            return;
        }
        // If standard error is closed, nobody sees it.
        let _ = eprint!(self.rt; "{WIPE}{done} of {all} choices done");
        if done == all {
            wipe_line(self.rt, self.audience);
        }
    }
}

/// Answers the commands of standard input, each as it comes. The program, and the file of the
/// choices if there is one, are opened before either is read. A person sees the progress of a long
/// start, and hints beside the answers.
pub fn obey_debug<R: Files + AllocGlobal + Print + Eprint + Input>(
    rt: &R,
    audience: Audience,
    talk: Audience,
    order: &DebugOrder,
    choices: RunChoices<'_>,
) -> Result<Status, Status> {
    let inputs = inputs_said(rt, order.inputs)?;
    let (mut program, mut source) = open_run(rt, audience, order.file, choices)?;
    match talk_over(rt, audience, talk, &inputs, &mut program, &mut source) {
        Ok(status) => Ok(status),
        Err(fault) => {
            let files = RunFiles {
                program: order.file,
                form: ProgramForm::Elf,
                choices,
                harts: inputs.len(),
            };
            Err(tell(rt, audience, files, fault))
        }
    }
}

// Answers the commands of standard input for a program and choices that are open.
fn talk_over<R: AllocGlobal + Print + Eprint + Input, P: Source, C: Source>(
    rt: &R,
    audience: Audience,
    talk: Audience,
    inputs: &[u32],
    program: &mut P,
    choices: &mut C,
) -> Result<Status, DebugEngineFault>
    requires program_counts { P.failures program.old < 2 ^ 64 - 1 }
    requires choices_count { C.failures choices.old < 2 ^ 64 - 1 }
{
    let mut line = Line { rt, audience };
    if talk == Audience::Person {
        return talk_to_person(rt, inputs, program, choices, &mut line);
    }
    let Ok(reader) = BufReader::new(rt.alloc(), rt.reader()) else {
        return Err(DebugEngineFault::Memory);
    };
    let mut commands = ReaderSource::new(reader);
    let mut sink = StandardOutput::new(rt);
    let answer = debug_engine(
        rt.alloc(),
        inputs,
        program,
        choices,
        &mut commands,
        &mut sink,
        &mut line,
    );
    match answer {
        Err(DebugEngineFault::Answers) if !sink.has_reader() => Ok(Status::Done),
        answer => answer,
    }
}

// Reports why the session didn't begin, or ended early.
fn tell<R: Files + AllocGlobal + Eprint>(
    rt: &R,
    audience: Audience,
    files: RunFiles<'_>,
    fault: DebugEngineFault,
) -> Status {
    let DebugEngineFault::Refused(why) = fault else {
        // If standard error is closed, only the status shows it.
        let _ = eprintln!(rt; "rvcons: {fault}");
        return fault.status();
    };
    say_why(rt, audience, files, why)
}
