//! `trace`: from a program, inputs and a choice text to what each choice did.

ghost use Rattle.std.specs.Prelude.{◌≡◌, ◌≢◌, ◌^◌, ◌-◌, ◌<◌, ◌⊎◌, Ok, Err, IfOk, IfErr, IfSome, length};
ghost use Rattle.std.specs.Io.KnownBytes.{Keeps};
ghost use Rattle.image.specs.Image.{ImageValue};
ghost use Rattle.machine.specs.Start.{IsStartable};
ghost use Rattle.sched_text.specs.Reading.{choices_read};
ghost use Rattle.program_open.specs.Opening.{program_opening, with_choices};
ghost use Rattle.program_open.specs.Program.{program_of};
ghost use Rattle.program_open.specs.CommandFaults.{IfNames, IsOfProgram, IsRefusal};
ghost use Rattle.program_open.specs.Answers.{BeginsToPrint, Prints};
ghost use Rattle.cmd_trace.specs.Answer.{trace_after, trace_answer};

use crate::counting::count_choices;
use crate::opening::open_trace;
use crate::plan::TracePlan;
use crate::writing::write_trace;
use byte_io::{Sink, Source, Status};
use program_named::NamedText;
use program_open::{CommandFault, Input, ProgramForm};
use std::alloc::Allocator;

// Counts the choices of a run, and writes its trace. Nothing is written if a choice is bad; after
// any other fault a beginning may have been written.
#[tactic(auto, using(program_open::proofs::FaultLemmas::choices_alone, program_open::proofs::FaultLemmas::halts_alone))]
fn trace_run<A: Allocator + Copy, K: Sink>(
    alloc: A,
    plan: TracePlan,
    run: &NamedText<A>,
    sink: &mut K,
) -> Result<Status, CommandFault>
    requires { K.failures sink.old < 2 ^ 64 - 1 }
    ensures done { IfOk result (λ status.
        Prints (trace_after plan run.now.program.symbols.items run.now.inputs
        (with_choices run.now.program.image (choices_read (length run.now.inputs) run.now.text.items)))
        status (K.held sink.old) (K.held sink.new)) }
    ensures refused { IfErr result (λ fault. IsRefusal fault
        → trace_after plan run.now.program.symbols.items run.now.inputs
        (with_choices run.now.program.image (choices_read (length run.now.inputs) run.now.text.items)) ≡ Err fault) }
    ensures unwritten { IfErr result (λ fault. fault ≢ CommandFault.Write → fault ≢ CommandFault.Memory
        → Keeps (K.held sink.old) (K.held sink.new)) }
    ensures not_of_program { IfErr result (λ fault. IsOfProgram fault → ⊥) }
    ensures read { IfErr result (λ fault.
        IfNames fault ⊥ ⊥ ⊥ (K.failures sink.old < K.failures sink.new)) }
    ensures begun { result ≡ Err CommandFault.Write
        → BeginsToPrint (trace_after plan run.now.program.symbols.items run.now.inputs
        (with_choices run.now.program.image (choices_read (length run.now.inputs) run.now.text.items)))
        (K.held sink.old) (K.held sink.new) }
    ensures halted { result ≡ Err CommandFault.Memory → Keeps (K.held sink.old) (K.held sink.new)
        ⊎ BeginsToPrint (trace_after plan run.now.program.symbols.items run.now.inputs
        (with_choices run.now.program.image (choices_read (length run.now.inputs) run.now.text.items)))
        (K.held sink.old) (K.held sink.new) }
{
    let count = match count_choices(&run.text, run.inputs.harts()) {
        Ok(count) => count,
        Err(fault) => return Err(CommandFault::from(fault)),
    };
    match write_trace(alloc, plan, run, count, sink) {
        Ok(()) => Ok(Status::Done),
        Err(fault) => Err(fault),
    }
}

/// `trace`: reads the program in this form to its end and, if it is valid and the number of inputs
/// is, the choice text to its end; writes the trace that the plan asks for, in pieces. Nothing is
/// written if an input is invalid; after any other fault the sink may have a beginning. The choices
/// are read from the text one by one, and never held as a list.
pub fn trace_engine<A: Allocator + Copy, P: Source, C: Source, K: Sink>(
    alloc: A,
    form: ProgramForm,
    plan: TracePlan,
    inputs: &[u32],
    program: &mut P,
    choices: &mut C,
    sink: &mut K,
) -> Result<Status, CommandFault>
    requires program_counts { P.failures program.old < 2 ^ 64 - 1 }
    requires choices_count { C.failures choices.old < 2 ^ 64 - 1 }
    requires sink_counts { K.failures sink.old < 2 ^ 64 - 1 }
    // The whole trace was appended, and the status is 0.
    ensures done { IfOk result (λ status.
        IfSome (P.left program.old) (λ p. IfSome (C.left choices.old) (λ c.
        Prints (trace_answer form plan inputs.now p c) status (K.held sink.old) (K.held sink.new)))) }
    // An input is invalid, and nothing is written.
    ensures refused { IfErr result (λ fault. IsRefusal fault
        → IfSome (P.left program.old) (λ p. IfSome (C.left choices.old) (λ c.
        trace_answer form plan inputs.now p c ≡ Err fault))) }
    // A fault of the program or of the number of inputs is that whatever the choices are.
    ensures of_program { IfErr result (λ fault. IsOfProgram fault
        → IfSome (P.left program.old) (λ p. program_opening form (length inputs.now) p ≡ Err fault)) }
    ensures unwritten { IfErr result (λ fault. fault ≢ CommandFault.Write → fault ≢ CommandFault.Memory
        → Keeps (K.held sink.old) (K.held sink.new)) }
    // A device is named only if it failed.
    ensures read { IfErr result (λ fault. IfNames fault
        (P.failures program.old < P.failures program.new)
        (C.failures choices.old < C.failures choices.new) ⊥
        (K.failures sink.old < K.failures sink.new)) }
    // A fault of the program or of the number of inputs comes before one of the choices' device.
    ensures program_first { result ≡ Err (CommandFault.Read Input.Choices)
        → IfSome (P.left program.old) (λ p. (image : ImageValue) × (program_of form p ≡ Ok image)) }
    ensures inputs_first { result ≡ Err (CommandFault.Read Input.Choices) → IsStartable inputs.now }
    // After a failed write, or if a later line is out of memory, the sink has a beginning of the
    // text.
    ensures begun { result ≡ Err CommandFault.Write
        → IfSome (P.left program.old) (λ p. IfSome (C.left choices.old) (λ c.
        BeginsToPrint (trace_answer form plan inputs.now p c) (K.held sink.old) (K.held sink.new))) }
    ensures halted { result ≡ Err CommandFault.Memory
        → IfSome (P.left program.old) (λ p. IfSome (C.left choices.old) (λ c.
        Keeps (K.held sink.old) (K.held sink.new)
        ⊎ BeginsToPrint (trace_answer form plan inputs.now p c) (K.held sink.old) (K.held sink.new))) }
{
    let run = match open_trace(alloc, form, inputs, program, choices) {
        Ok(run) => run,
        Err(fault) => return Err(fault),
    };
    match trace_run(alloc, plan, &run, sink) {
        Ok(status) => Ok(status),
        Err(fault) => Err(fault),
    }
}
