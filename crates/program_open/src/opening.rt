//! Opens a run: the program, the number of inputs and the choice text are checked once, in this
//! order.

ghost use Rattle.std.specs.Prelude.{◌≡◌, ◌≢◌, ◌^◌, ◌-◌, ◌<◌, ℕ, List, Ok, Err, IfOk, IfErr, IfSome, length};
ghost use Rattle.std.specs.List.{All};
ghost use Rattle.image.specs.Image.{ImageValue};
ghost use Rattle.machine.specs.Start.{IsStartable};
ghost use Rattle.sched_text.specs.Reading.{choices_read};
ghost use Rattle.program_open.specs.Opening.{opening, program_opening, with_choices};
ghost use Rattle.program_open.specs.Program.{program_of};
ghost use Rattle.program_open.specs.CommandFaults.{IfNames, IsOfProgram, IsRefusal};

use crate::command_fault::{CommandFault, Input};
use crate::program::{ProgramForm, read_image};
use byte_io::{ReadFault, Source, read_all};
use image::Image;
use machine::{Choice, Inputs};
use sched_text::read_choices;
use std::alloc::Allocator;

/// An opened run before its choices are read.
#[derive(Drop)]
pub struct OpenText<A: Allocator> {
    /// The program's image.
    pub image: Image<A>,
    /// The harts' inputs.
    pub inputs: Inputs,
    /// The bytes of the choice text, unchecked.
    pub text: Vec<u8, A>,
}

/// Reads a program in this form to its end, checks the number of inputs, and reads the bytes of the
/// choice text to their end. The first fault is returned, and what comes after it is not read.
#[tactic(auto, unfolding(crate::specs::Opening::opening, crate::specs::Opening::program_opening), using(crate::proofs::FaultLemmas::of_program))]
pub fn open_text<A: Allocator + Copy, P: Source, C: Source>(
    alloc: A,
    form: ProgramForm,
    inputs: &[u32],
    program: &mut P,
    choices: &mut C,
) -> Result<OpenText<A>, CommandFault>
    requires program_counts { P.failures program.old < 2 ^ 64 - 1 }
    requires choices_count { C.failures choices.old < 2 ^ 64 - 1 }
    ensures inputs { IfOk result (λ run. (run.inputs ≡ inputs.now) × IsStartable inputs.now) }
    ensures image { IfOk result (λ run.
        IfSome (P.left program.old) (λ p. program_of form p ≡ Ok run.image)) }
    ensures opened { IfOk result (λ run.
        IfSome (P.left program.old) (λ p. IfSome (C.left choices.old) (λ c.
        opening form (length inputs.now) p c
        ≡ with_choices run.image (choices_read (length inputs.now) run.text.items)))) }
    ensures refused { IfErr result (λ fault. IsRefusal fault
        → IfSome (P.left program.old) (λ p. IfSome (C.left choices.old) (λ c.
        opening form (length inputs.now) p c ≡ Err fault))) }
    // A fault of the program or of the number of inputs is that whatever the choices are.
    ensures of_program { IfErr result (λ fault. IsOfProgram fault
        → IfSome (P.left program.old) (λ p. program_opening form (length inputs.now) p ≡ Err fault)) }
    // A device is named only if it failed.
    ensures read { IfErr result (λ fault. IfNames fault
        (P.failures program.old < P.failures program.new)
        (C.failures choices.old < C.failures choices.new) ⊥ ⊥) }
    // A fault of the program or of the number of inputs comes before one of the choices' device.
    ensures program_first { result ≡ Err (CommandFault.Read Input.Choices)
        → IfSome (P.left program.old) (λ p. (image : ImageValue) × (program_of form p ≡ Ok image)) }
    ensures inputs_first { result ≡ Err (CommandFault.Read Input.Choices) → IsStartable inputs.now }
{
    let image = read_image(alloc, form, program)?;
    let inputs = Inputs::new(inputs)?;
    match read_all(alloc, choices) {
        Ok(text) => Ok(OpenText {
            image,
            inputs,
            text,
        }),
        Err(ReadFault::Device) => Err(CommandFault::Read(Input::Choices)),
        Err(ReadFault::Memory) => Err(CommandFault::Memory),
    }
}

/// An opened run.
#[derive(Drop)]
pub struct OpenRun<A: Allocator> {
    /// The program's image.
    pub image: Image<A>,
    /// The harts' inputs.
    pub inputs: Inputs,
    /// The choices, each of a hart that exists.
    pub choices: Vec<Choice, A>,
}

/// Reads a program in this form to its end, checks the number of inputs, and reads the choice text
/// to its end. The first fault is returned, and what comes after it is not read. For commands that
/// need the choices as a list.
pub fn open_run<A: Allocator + Copy, P: Source, C: Source>(
    alloc: A,
    form: ProgramForm,
    inputs: &[u32],
    program: &mut P,
    choices: &mut C,
) -> Result<OpenRun<A>, CommandFault>
    requires program_counts { P.failures program.old < 2 ^ 64 - 1 }
    requires choices_count { C.failures choices.old < 2 ^ 64 - 1 }
    ensures inputs { IfOk result (λ run. (run.inputs ≡ inputs.now) × IsStartable inputs.now) }
    ensures within { IfOk result (λ run. All (λ c. c.hart < length run.inputs) run.choices.items) }
    ensures image { IfOk result (λ run.
        IfSome (P.left program.old) (λ p. program_of form p ≡ Ok run.image)) }
    ensures opened { IfOk result (λ run.
        IfSome (P.left program.old) (λ p. IfSome (C.left choices.old) (λ c.
        opening form (length inputs.now) p c ≡ Ok (run.image, run.choices.items)))) }
    ensures refused { IfErr result (λ fault. IsRefusal fault
        → IfSome (P.left program.old) (λ p. IfSome (C.left choices.old) (λ c.
        opening form (length inputs.now) p c ≡ Err fault))) }
    // A fault of the program or of the number of inputs is that whatever the choices are.
    ensures of_program { IfErr result (λ fault. IsOfProgram fault
        → IfSome (P.left program.old) (λ p. program_opening form (length inputs.now) p ≡ Err fault)) }
    // A device is named only if it failed.
    ensures read { IfErr result (λ fault. IfNames fault
        (P.failures program.old < P.failures program.new)
        (C.failures choices.old < C.failures choices.new) ⊥ ⊥) }
    // A fault of the program or of the number of inputs comes before one of the choices' device.
    ensures program_first { result ≡ Err (CommandFault.Read Input.Choices)
        → IfSome (P.left program.old) (λ p. (image : ImageValue) × (program_of form p ≡ Ok image)) }
    ensures inputs_first { result ≡ Err (CommandFault.Read Input.Choices) → IsStartable inputs.now }
{
    let run = open_text(alloc, form, inputs, program, choices)?;
    let choices = read_choices(alloc, &run.text, run.inputs.harts())?;
    Ok(OpenRun {
        image: run.image,
        inputs: run.inputs,
        choices,
    })
}
