//! Writes answers that are made whole first.

ghost use Rattle.std.specs.Prelude.{◌≡◌, ◌-◌, ◌^◌, ◌<◌, Err, IfOk, IfErr};
ghost use Rattle.std.specs.Io.KnownBytes.{Appends, Keeps};
ghost use Rattle.byte_io.specs.Device.{CountsFailure};
ghost use Rattle.program_open.specs.Answers.{answer_of, Begins, BeginsToPrint, Prints};

use crate::command_fault::CommandFault;
use byte_io::{Sink, Status, write_all};
use std::alloc::Allocator;

/// Writes a text whole.
pub fn write_text<K: Sink>(sink: &mut K, text: &[u8]) -> Result<(), CommandFault>
    requires { K.failures sink.old < 2 ^ 64 - 1 }
    ensures written { IfOk result (λ _. Appends (K.held sink.old) (K.held sink.new) text.now) }
    // Only the sink can fail; it then has a beginning of the text.
    ensures fault { IfErr result (λ fault. fault ≡ CommandFault.Write) }
    ensures begun { IfErr result (λ _. Begins text.now (K.held sink.old) (K.held sink.new)) }
    ensures count { CountsFailure result (K.failures sink.old) (K.failures sink.new) }
{
    match write_all(sink, text) {
        Ok(()) => Ok(()),
        Err(_) => Err(CommandFault::Write),
    }
}

/// Writes the text of a command's answer, and returns its status. For a fault nothing is written,
/// and the fault is returned.
pub fn deliver<A: Allocator, K: Sink>(
    sink: &mut K,
    answer: Result<(String<A>, Status), CommandFault>,
) -> Result<Status, CommandFault>
    requires { K.failures sink.old < 2 ^ 64 - 1 }
    // The whole text was appended, and this is the answer's status.
    ensures done { IfOk result (λ status.
        Prints (answer_of answer) status (K.held sink.old) (K.held sink.new)) }
    // The answer is a fault, and nothing is written.
    ensures refused { IfErr answer (λ why. result ≡ Err why) }
    ensures unwritten { IfErr answer (λ _. Keeps (K.held sink.old) (K.held sink.new)) }
    ensures untouched { IfErr answer (λ _. K.failures sink.new ≡ K.failures sink.old) }
    // With an answer only the sink can fail; it then has a beginning of the text.
    ensures fault { IfOk answer (λ _. IfErr result (λ fault. fault ≡ CommandFault.Write)) }
    ensures begun { IfOk answer (λ _. IfErr result (λ _.
        BeginsToPrint (answer_of answer) (K.held sink.old) (K.held sink.new))) }
    ensures count { IfOk answer (λ _.
        CountsFailure result (K.failures sink.old) (K.failures sink.new)) }
{
    let (text, status) = match answer {
        Ok(answer) => answer,
        Err(fault) => return Err(fault),
    };
    match write_text(sink, text.as_bytes()) {
        Ok(()) => Ok(status),
        Err(fault) => Err(fault),
    }
}
