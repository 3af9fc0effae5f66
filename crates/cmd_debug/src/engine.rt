//! `debug`: from a program, inputs, a choice text and commands to an answer for each command.

ghost use Rattle.std.specs.Prelude.{◌≡◌, ◌^◌, ◌-◌, ◌<◌, Ok, Err, IfOk, IfErr, IfSome, length};
ghost use Rattle.std.specs.Io.KnownBytes.{Keeps};
ghost use Rattle.program_open.specs.Program.{program_of};
ghost use Rattle.machine.specs.Start.{IsStartable};
ghost use Rattle.program_open.specs.CommandFaults.{IfNames, IsOfProgram, IsRefusal};
ghost use Rattle.program_open.specs.Opening.{program_opening};
ghost use Rattle.image.specs.Image.{ImageValue};
ghost use Rattle.program_named.specs.Symbols.{program_symbols};
ghost use Rattle.cmd_debug.specs.Opening.{opened, Answers, BeginsToAnswer, IfCut, IfUnopened};

use crate::conversation::{TalkFault, talk};
use crate::fault::DebugEngineFault;
use crate::opening::open_session;
use byte_io::{Progress, Sink, Source, Status};
use program_named::open_named;
use program_open::{CommandFault, Input, ProgramForm};
use std::alloc::{AllocError, Allocator};

/// `debug`: reads the file to its end and, if it is a valid program and the number of inputs is
/// valid, the choice text to its end; then answers each line of the commands before it reads the
/// next, until one ends the session or none is left. If the session can't begin, no command is
/// read. A long start reports its progress.
#[tactic(auto, unfolding(crate::specs::Opening::opened))]
pub fn debug_engine<A: Allocator + Copy, P: Source, C: Source, S: Source, K: Sink>(
    alloc: A,
    inputs: &[u32],
    program: &mut P,
    choices: &mut C,
    commands: &mut S,
    sink: &mut K,
    progress: &mut impl Progress,
) -> Result<Status, DebugEngineFault>
    requires program_counts { P.failures program.old < 2 ^ 64 - 1 }
    requires choices_count { C.failures choices.old < 2 ^ 64 - 1 }
    requires commands_count { S.failures commands.old < 2 ^ 64 - 1 }
    requires sink_counts { K.failures sink.old < 2 ^ 64 - 1 }
    ensures status { IfOk result (λ status. status ≡ Status.Done) }
    // The session's answers to the lines of the commands were appended.
    ensures done { IfOk result (λ _.
        IfSome (P.left program.old) (λ p. IfSome (C.left choices.old) (λ c.
        IfSome (S.left commands.old) (λ s.
        Answers (program_symbols ProgramForm.Elf p) (opened inputs.now p c) s (K.held sink.old) (K.held sink.new))))) }
    // An input is invalid, no command is read and nothing is written.
    ensures refused { IfErr result (λ fault. IfUnopened fault (λ why. IsRefusal why
        → IfSome (P.left program.old) (λ p. IfSome (C.left choices.old) (λ c.
        opened inputs.now p c ≡ Err why)))) }
    // A fault of the program or of the number of inputs is that whatever the choices are.
    ensures of_program { IfErr result (λ fault. IfUnopened fault (λ why. IsOfProgram why
        → IfSome (P.left program.old) (λ p.
        program_opening ProgramForm.Elf (length inputs.now) p ≡ Err why))) }
    ensures unwritten { IfErr result (λ fault. IfUnopened fault (λ _.
        Keeps (K.held sink.old) (K.held sink.new))) }
    ensures unread { IfErr result (λ fault. IfUnopened fault (λ _.
        Keeps (S.left commands.old) (S.left commands.new))) }
    // A device is named only if it failed.
    ensures read { IfErr result (λ fault. IfUnopened fault (λ why. IfNames why
        (P.failures program.old < P.failures program.new)
        (C.failures choices.old < C.failures choices.new) ⊥ ⊥)) }
    // A fault of the program comes before one of the choices' device.
    ensures program_first { result ≡ Err (DebugEngineFault.Refused (CommandFault.Read Input.Choices))
        → IfSome (P.left program.old) (λ p.
        (image : ImageValue) × (program_of ProgramForm.Elf p ≡ Ok image)) }
    // So does the fault of the number of inputs.
    ensures inputs_first { result ≡ Err (DebugEngineFault.Refused (CommandFault.Read Input.Choices))
        → IsStartable inputs.now }
    ensures commands { result ≡ Err DebugEngineFault.Commands
        → S.failures commands.old < S.failures commands.new }
    ensures write { result ≡ Err DebugEngineFault.Answers
        → K.failures sink.old < K.failures sink.new }
    // After a fault within the session the sink has a beginning of its answers.
    ensures begun { IfErr result (λ fault. IfCut fault
        (IfSome (P.left program.old) (λ p. IfSome (C.left choices.old) (λ c.
        IfSome (S.left commands.old) (λ s.
        BeginsToAnswer (program_symbols ProgramForm.Elf p) (opened inputs.now p c) s (K.held sink.old) (K.held sink.new)))))) }
{
    let named = match open_named(alloc, ProgramForm::Elf, inputs, program, choices) {
        Ok(named) => named,
        Err(fault) => return Err(DebugEngineFault::Refused(fault)),
    };
    let mut debugger = match open_session(alloc, named.opened, progress) {
        Ok(debugger) => debugger,
        Err(AllocError) => return Err(DebugEngineFault::Refused(CommandFault::Memory)),
    };
    match talk(alloc, &mut debugger, &named.symbols, commands, sink) {
        Ok(()) => Ok(Status::Done),
        Err(TalkFault::Read) => Err(DebugEngineFault::Commands),
        Err(TalkFault::Write) => Err(DebugEngineFault::Answers),
        Err(TalkFault::Memory) => Err(DebugEngineFault::Memory),
    }
}
