//! Opens a trace: the program with its symbols, the number of inputs and the choice text are read
//! once, in this order.

ghost use Rattle.std.specs.Prelude.{◌≡◌, ◌^◌, ◌-◌, ◌<◌, Ok, Err, IfOk, IfErr, IfSome, length};
ghost use Rattle.image.specs.Image.{ImageValue};
ghost use Rattle.machine.specs.Start.{IsStartable};
ghost use Rattle.sched_text.specs.Reading.{choices_read};
ghost use Rattle.program_open.specs.Opening.{program_opening, with_choices};
ghost use Rattle.program_open.specs.Program.{program_of};
ghost use Rattle.program_open.specs.CommandFaults.{IfNames, IsOfProgram, IsRefusal};
ghost use Rattle.cmd_trace.specs.Answer.{trace_after, trace_answer};
ghost use Rattle.cmd_trace.specs.declared.plan.TracePlan.{TracePlan};

use byte_io::Source;
use program_named::{NamedText, open_named_text};
use program_open::{CommandFault, Input, ProgramForm};
use std::alloc::Allocator;

/// Reads a program in this form to its end, checks the number of inputs, and reads the bytes of the
/// choice text to their end. The first fault is returned, and what comes after it is not read.
#[tactic(auto, unfolding(crate::specs::Answer::trace_answer))]
pub(crate) fn open_trace<A: Allocator + Copy, P: Source, C: Source>(
    alloc: A,
    form: ProgramForm,
    inputs: &[u32],
    program: &mut P,
    choices: &mut C,
) -> Result<NamedText<A>, CommandFault>
    requires program_counts { P.failures program.old < 2 ^ 64 - 1 }
    requires choices_count { C.failures choices.old < 2 ^ 64 - 1 }
    ensures opened { IfOk result (λ run. (plan : TracePlan)
        → IfSome (P.left program.old) (λ p. IfSome (C.left choices.old) (λ c.
        trace_answer form plan inputs.now p c ≡ trace_after plan run.program.symbols.items run.inputs
        (with_choices run.program.image (choices_read (length run.inputs) run.text.items))))) }
    ensures refused { IfErr result (λ fault. IsRefusal fault → (plan : TracePlan)
        → IfSome (P.left program.old) (λ p. IfSome (C.left choices.old) (λ c.
        trace_answer form plan inputs.now p c ≡ Err fault))) }
    // A fault of the program or of the number of inputs is that whatever the choices are.
    ensures of_program { IfErr result (λ fault. IsOfProgram fault
        → IfSome (P.left program.old) (λ p. program_opening form (length inputs.now) p ≡ Err fault)) }
    ensures read { IfErr result (λ fault. IfNames fault
        (P.failures program.old < P.failures program.new)
        (C.failures choices.old < C.failures choices.new) ⊥ ⊥) }
    ensures program_first { result ≡ Err (CommandFault.Read Input.Choices)
        → IfSome (P.left program.old) (λ p. (image : ImageValue) × (program_of form p ≡ Ok image)) }
    ensures inputs_first { result ≡ Err (CommandFault.Read Input.Choices) → IsStartable inputs.now }
{
    open_named_text(alloc, form, inputs, program, choices)
}
