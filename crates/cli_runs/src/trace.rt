//! Runs `trace`.

ghost use Rattle.std.specs.Prelude.{◌-◌, ◌<◌, ◌^◌};

use crate::trace_plan::read_trace_plan;
use crate::word::{advice_for, traced_word};
use byte_io::{MemorySource, ReadFault, Source, Status, read_all};
use cli_orders::TraceOrder;
use cli_report::{
    Audience, RunChoices, RunFiles, StandardOutput, bad_line, form_said, inputs_said, open_run,
    say_why,
};
use cmd_trace::{TracePlan, trace_engine};
use machine::Inputs;
use program_named::{NamedProgram, read_named};
use program_open::{CommandFault, Input};
use std::alloc::Global;
use std::rt::Files;

/// Prints what each of the choices of a run did, or those alone that access the order's word. The
/// program, and the file of the choices if there is one, are opened before either is read.
pub fn obey_trace<R: Files + AllocGlobal + Print + Eprint>(
    rt: &R,
    audience: Audience,
    order: &TraceOrder,
    choices: RunChoices<'_>,
) -> Result<Status, Status> {
    let form = form_said(order.hex);
    let inputs = inputs_said(rt, order.inputs)?;
    let Some(plan) = read_trace_plan(order.table, order.shared, order.from, order.to) else {
        return Err(bad_line(
            rt,
            "--from and --to take the numbers of choices, decimal numbers from 0 to 2^64 - 1, as --from 3 --to 37",
        ));
    };
    let asked = Asked {
        files: RunFiles {
            program: order.file,
            form,
            choices,
            harts: inputs.len(),
        },
        plan,
        inputs: &inputs,
    };
    let (mut program, mut source) = open_run(rt, audience, order.file, choices)?;
    match order.word {
        None => print_trace(rt, audience, asked, &mut program, &mut source),
        Some(text) => trace_word(rt, audience, asked, text, &mut program, &mut source),
    }
}

// A trace that is asked for.
#[derive(Clone, Copy)]
struct Asked<'a> {
    files: RunFiles<'a>,
    plan: TracePlan,
    inputs: &'a [u32],
}

// Prints the trace of a program that has been opened.
fn print_trace<R: Files + AllocGlobal + Print + Eprint, P: Source, C: Source>(
    rt: &R,
    audience: Audience,
    asked: Asked<'_>,
    program: &mut P,
    choices: &mut C,
) -> Result<Status, Status>
    requires program_counts { P.failures program.old < 2 ^ 64 - 1 }
    requires choices_count { C.failures choices.old < 2 ^ 64 - 1 }
{
    let (alloc, form, plan) = (rt.alloc(), asked.files.form, asked.plan);
    let mut sink = StandardOutput::new(rt);
    match trace_engine(alloc, form, plan, asked.inputs, program, choices, &mut sink) {
        Ok(status) => Ok(status),
        Err(CommandFault::Write) if !sink.has_reader() => Ok(Status::Done),
        Err(fault) => Err(say_why(rt, audience, asked.files, fault)),
    }
}

// Prints the trace of the accesses of a word, which may be named by a symbol of the program. A fault
// of the program comes before that of the number of inputs, and both before that of the word.
fn trace_word<R: Files + AllocGlobal + Print + Eprint, P: Source, C: Source>(
    rt: &R,
    audience: Audience,
    asked: Asked<'_>,
    text: &str,
    program: &mut P,
    choices: &mut C,
) -> Result<Status, Status>
    requires program_counts { P.failures program.old < 2 ^ 64 - 1 }
    requires choices_count { C.failures choices.old < 2 ^ 64 - 1 }
{
    let (bytes, named) = match read_checked(rt.alloc(), asked, program) {
        Ok(read) => read,
        Err(fault) => return Err(say_why(rt, audience, asked.files, fault)),
    };
    let word = match traced_word(&named.symbols, text.as_bytes()) {
        Ok(word) => word,
        Err(fault) => {
            let why = advice_for(fault);
            let _ = eprintln!(rt; "rvcons: '{text}': {why}");
            return Err(Status::BadLine);
        }
    };
    let plan = TracePlan {
        word: Some(word),
        ..asked.plan
    };
    let asked = Asked { plan, ..asked };
    print_trace(rt, audience, asked, &mut MemorySource::new(&bytes), choices)
}

// The bytes of a program, to its end, and what they are, for a number of inputs that can start.
fn read_checked<P: Source>(
    alloc: Global,
    asked: Asked<'_>,
    program: &mut P,
) -> Result<(Vec<u8>, NamedProgram<Global>), CommandFault>
    requires { P.failures program.old < 2 ^ 64 - 1 }
{
    let bytes = match read_all(alloc, program) {
        Ok(bytes) => bytes,
        Err(ReadFault::Device) => return Err(CommandFault::Read(Input::File)),
        Err(ReadFault::Memory) => return Err(CommandFault::Memory),
    };
    let named = read_named(alloc, asked.files.form, &mut MemorySource::new(&bytes))?;
    Inputs::new(asked.inputs)?;
    Ok((bytes, named))
}
