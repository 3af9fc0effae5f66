//! `shrink`: from a program, inputs and a failing list of choices to the choice text of a minimal
//! one.

ghost use Rattle.std.specs.Prelude.{◌≡◌, ◌^◌, ◌-◌, ◌<◌, length, string_bytes};
ghost use Rattle.std.specs.Prelude.{Err, IfErr, IfOk, IfSome, Ok, Some};
ghost use Rattle.image.specs.Image.{ImageValue};
ghost use Rattle.machine.specs.Start.{IsStartable};
ghost use Rattle.program_open.specs.CommandFaults.{IfNames, IsOfProgram, IsRefusal};
ghost use Rattle.program_open.specs.Opening.{opening, program_opening};
ghost use Rattle.program_open.specs.Program.{program_of};
ghost use Rattle.cmd_shrink.specs.Shrink.{Shrinks, refusal};

use crate::ChoicesLeft;
use crate::shortening::shortened;
use byte_io::{Source, Status};
use outcome::Expect;
use program_open::{CommandFault, Input, ProgramForm, open_run};
use property_judge::Property;
use std::alloc::{AllocError, Allocator};

/// `shrink`: reads the program to its end and, if it is valid and the number of inputs is, the
/// choice text to its end; returns the text of some of these choices, those of each hart in their
/// order and some without their mark, whose run still fails in the same way, but no longer without
/// any one of its choices or marks, nor with fewer switches of harts after an exchange or a move of
/// runs. If each hart must exit, a run that hangs has failed; a run that breaks one of the properties
/// has failed in that way, whatever else it does.
pub fn shrink_engine<A: Allocator + Copy, P: Source, C: Source, L: ChoicesLeft>(
    alloc: A,
    inputs: &[u32],
    expect: Expect,
    properties: &[Property],
    program: &mut P,
    choices: &mut C,
    left: &mut L,
) -> Result<(String<A>, Status), CommandFault>
    requires program_counts { P.failures program.old < 2 ^ 64 - 1 }
    requires choices_count { C.failures choices.old < 2 ^ 64 - 1 }
    ensures done { IfOk result (λ answer. answer.1 ≡ Status.Done) }
    ensures shrunk { IfOk result (λ answer.
        IfSome (P.left program.old) (λ p. IfSome (C.left choices.old) (λ c.
        Shrinks expect properties.now inputs.now (opening ProgramForm.Elf (length inputs.now) p c)
        (string_bytes answer.0)))) }
    // An input is invalid, or nothing fails.
    ensures refused { IfErr result (λ fault. IsRefusal fault
        → IfSome (P.left program.old) (λ p. IfSome (C.left choices.old) (λ c.
        refusal expect properties.now inputs.now (opening ProgramForm.Elf (length inputs.now) p c) ≡ Some fault))) }
    // A fault of the program or of the number of inputs is that whatever the choices are.
    ensures of_program { IfErr result (λ fault. IsOfProgram fault
        → IfSome (P.left program.old) (λ p. program_opening ProgramForm.Elf (length inputs.now) p ≡ Err fault)) }
    // A device is named only if it failed.
    ensures read { IfErr result (λ fault. IfNames fault
        (P.failures program.old < P.failures program.new)
        (C.failures choices.old < C.failures choices.new) ⊥ ⊥) }
    // A fault of the program or of the number of inputs comes before one of the choices' device.
    ensures program_first { result ≡ Err (CommandFault.Read Input.Choices)
        → IfSome (P.left program.old) (λ p. (image : ImageValue) × (program_of ProgramForm.Elf p ≡ Ok image)) }
    ensures inputs_first { result ≡ Err (CommandFault.Read Input.Choices) → IsStartable inputs.now }
{
    let run = open_run(alloc, ProgramForm::Elf, inputs, program, choices)?;
    match shortened(
        alloc,
        &run.image,
        &run.inputs,
        expect,
        properties,
        &run.choices,
        left,
    ) {
        Ok(Some(text)) => Ok((text, Status::Done)),
        Ok(None) => Err(CommandFault::NothingFails),
        Err(AllocError) => Err(CommandFault::Memory),
    }
}
