//! `run` and `trace`.

ghost use Rattle.std.specs.Prelude.{◌≡◌, ◌≢◌};
ghost use Rattle.cmd_run.specs.Run.{run_answer};
ghost use Rattle.cmd_trace.specs.Answer.{trace_answer};
ghost use Rattle.page_calls.specs.Replies.{KeepsRest, TellsAnswer, TellsFault};
ghost use Rattle.program_open.specs.CommandFaults.{IsRefusal, status_of_fault};

use crate::reply::{Reply, answered, refused};
use byte_io::{MemorySink, MemorySource};
use cmd_run::run_engine;
use cmd_trace::{TracePlan, trace_engine};
use outcome::Expect;
use program_open::{CommandFault, ProgramForm};
use std::alloc::Allocator;

/// The reply of a command with this fault. What is in memory can be read, and a sink in memory
/// refuses a byte only where memory is refused.
pub(crate) fn refused_by<A: Allocator>(alloc: A, fault: CommandFault, out: &mut [u8]) -> Reply
    ensures told { IsRefusal fault → TellsFault (status_of_fault fault) out.new result }
    ensures other { result ≢ Reply.NoMemory → IsRefusal fault }
    ensures kept { KeepsRest out.old out.new result }
{
    match fault {
        CommandFault::Memory | CommandFault::Write | CommandFault::Read(_) => Reply::NoMemory,
        fault => refused(alloc, &fault, fault.status(), out),
    }
}

/// `run`: the harts' ends, and under a rule the verdict. The program and the choice text are whole.
pub fn run_call<A: Allocator + Copy>(
    alloc: A,
    form: ProgramForm,
    inputs: &[u32],
    expect: Expect,
    program: &[u8],
    choices: &[u8],
    out: &mut [u8],
) -> Reply
    ensures told { TellsAnswer status_of_fault (run_answer form inputs.now expect program.now choices.now) out.new result }
    ensures kept { KeepsRest out.old out.new result }
{
    let mut program = MemorySource::new(program);
    let mut choices = MemorySource::new(choices);
    match run_engine(alloc, form, inputs, expect, &mut program, &mut choices) {
        Ok((text, status)) => answered(text.as_bytes(), status, out),
        Err(fault) => refused_by(alloc, fault, out),
    }
}

/// `trace`: what the plan asks for of a run.
pub fn trace_call<A: Allocator + Copy>(
    alloc: A,
    form: ProgramForm,
    plan: TracePlan,
    inputs: &[u32],
    program: &[u8],
    choices: &[u8],
    out: &mut [u8],
) -> Reply
    ensures told { TellsAnswer status_of_fault (trace_answer form plan inputs.now program.now choices.now) out.new result }
    ensures kept { KeepsRest out.old out.new result }
{
    let mut program = MemorySource::new(program);
    let mut choices = MemorySource::new(choices);
    let mut sink = MemorySink::new(alloc);
    match trace_engine(
        alloc,
        form,
        plan,
        inputs,
        &mut program,
        &mut choices,
        &mut sink,
    ) {
        Ok(status) => answered(sink.bytes(), status, out),
        Err(fault) => refused_by(alloc, fault, out),
    }
}
