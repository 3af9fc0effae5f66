//! `debug`: a session whose commands are all there.

ghost use Rattle.page_calls.specs.Replies.{KeepsRest, TellsAnswer};
ghost use Rattle.page_calls.specs.Sessions.{session_answer};
ghost use Rattle.program_open.specs.CommandFaults.{status_of_fault};

use crate::reply::{Reply, answered};
use crate::running::refused_by;
use byte_io::{MemorySink, MemorySource, Unheard};
use cmd_debug::{DebugEngineFault, debug_engine};
use std::alloc::Allocator;

/// `debug`: the answers to the lines of the commands in a session from the start of a run.
pub fn debug_call<A: Allocator + Copy>(
    alloc: A,
    inputs: &[u32],
    program: &[u8],
    choices: &[u8],
    commands: &[u8],
    out: &mut [u8],
) -> Reply
    ensures told { TellsAnswer status_of_fault
        (session_answer inputs.now program.now choices.now commands.now) out.new result }
    ensures kept { KeepsRest out.old out.new result }
{
    let mut program = MemorySource::new(program);
    let mut choices = MemorySource::new(choices);
    let mut commands = MemorySource::new(commands);
    let mut sink = MemorySink::new(alloc);
    match debug_engine(
        alloc,
        inputs,
        &mut program,
        &mut choices,
        &mut commands,
        &mut sink,
        &mut Unheard,
    ) {
        Ok(status) => answered(sink.bytes(), status, out),
        Err(DebugEngineFault::Refused(fault)) => refused_by(alloc, fault, out),
        // A sink in memory refuses a byte only where memory is refused.
        Err(DebugEngineFault::Commands | DebugEngineFault::Answers | DebugEngineFault::Memory) =>
            Reply::NoMemory,
    }
}
