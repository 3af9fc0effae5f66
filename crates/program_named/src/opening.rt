//! Opens a run of a program with its symbols: the program, the number of inputs and the choice text
//! are checked once, in this order.

ghost use Rattle.std.specs.Prelude.{◌≡◌, ◌^◌, ◌-◌, ◌<◌, Ok, Err, IfOk, IfErr, IfSome, length};
ghost use Rattle.std.specs.List.{All};
ghost use Rattle.image.specs.Image.{ImageValue};
ghost use Rattle.machine.specs.Start.{IsStartable};
ghost use Rattle.sched_text.specs.Reading.{choices_read};
ghost use Rattle.program_open.specs.Opening.{opening, program_opening, with_choices};
ghost use Rattle.program_open.specs.Program.{program_of};
ghost use Rattle.program_open.specs.CommandFaults.{IfNames, IsOfProgram, IsRefusal};
ghost use Rattle.program_named.specs.Symbols.{program_symbols};

use crate::program::{NamedProgram, read_named};
use byte_io::{ReadFault, Source, read_all};
use elf_read::Symbol;
use machine::Inputs;
use program_open::{CommandFault, Input, OpenRun, ProgramForm};
use sched_text::read_choices;
use std::alloc::Allocator;

/// An opened run of a program with its symbols, before its choices are read.
#[derive(Drop)]
pub struct NamedText<A: Allocator> {
    /// The program.
    pub program: NamedProgram<A>,
    /// The harts' inputs.
    pub inputs: Inputs,
    /// The bytes of the choice text, unchecked.
    pub text: Vec<u8, A>,
}

/// Reads a program in this form to its end, checks the number of inputs, and reads the bytes of the
/// choice text to their end. The first fault is returned, and what comes after it is not read.
#[tactic(auto, unfolding(program_open::specs::Opening::opening, program_open::specs::Opening::program_opening), using(program_open::proofs::FaultLemmas::of_program))]
pub fn open_named_text<A: Allocator + Copy, P: Source, C: Source>(
    alloc: A,
    form: ProgramForm,
    inputs: &[u32],
    program: &mut P,
    choices: &mut C,
) -> Result<NamedText<A>, CommandFault>
    requires program_counts { P.failures program.old < 2 ^ 64 - 1 }
    requires choices_count { C.failures choices.old < 2 ^ 64 - 1 }
    ensures inputs { IfOk result (λ o. (o.inputs ≡ inputs.now) × IsStartable inputs.now) }
    ensures opened { IfOk result (λ o.
        IfSome (P.left program.old) (λ p. IfSome (C.left choices.old) (λ c.
        opening form (length inputs.now) p c
        ≡ with_choices o.program.image (choices_read (length inputs.now) o.text.items)))) }
    ensures symbols { IfOk result (λ o. IfSome (P.left program.old) (λ p.
        o.program.symbols.items ≡ program_symbols form p)) }
    ensures refused { IfErr result (λ fault. IsRefusal fault
        → IfSome (P.left program.old) (λ p. IfSome (C.left choices.old) (λ c.
        opening form (length inputs.now) p c ≡ Err fault))) }
    // A fault of the program or of the number of inputs is that whatever the choices are.
    ensures of_program { IfErr result (λ fault. IsOfProgram fault
        → IfSome (P.left program.old) (λ p. program_opening form (length inputs.now) p ≡ Err fault)) }
    // A device is named only if it failed.
    ensures read { IfErr result (λ fault. IfNames fault
        (P.failures program.old < P.failures program.new)
        (C.failures choices.old < C.failures choices.new) ⊥ ⊥) }
    // A fault of the program or of the number of inputs comes before one of the choices' device.
    ensures program_first { result ≡ Err (CommandFault.Read Input.Choices)
        → IfSome (P.left program.old) (λ p. (image : ImageValue) × (program_of form p ≡ Ok image)) }
    ensures inputs_first { result ≡ Err (CommandFault.Read Input.Choices) → IsStartable inputs.now }
{
    let program = read_named(alloc, form, program)?;
    let inputs = Inputs::new(inputs)?;
    match read_all(alloc, choices) {
        Ok(text) => Ok(NamedText {
            program,
            inputs,
            text,
        }),
        Err(ReadFault::Device) => Err(CommandFault::Read(Input::Choices)),
        Err(ReadFault::Memory) => Err(CommandFault::Memory),
    }
}

/// An opened run with its program's symbols.
#[derive(Drop)]
pub struct NamedRun<A: Allocator> {
    /// The run.
    pub opened: OpenRun<A>,
    /// The program's symbols, in the file's order; none of words in hexadecimal, and none if the
    /// file has no valid table.
    pub symbols: Vec<Symbol<A>, A>,
}

/// Reads a program in this form to its end, checks the number of inputs, and reads the choice text
/// to its end. The first fault is returned, and what comes after it is not read. For commands that
/// need the choices as a list.
pub fn open_named<A: Allocator + Copy, P: Source, C: Source>(
    alloc: A,
    form: ProgramForm,
    inputs: &[u32],
    program: &mut P,
    choices: &mut C,
) -> Result<NamedRun<A>, CommandFault>
    requires program_counts { P.failures program.old < 2 ^ 64 - 1 }
    requires choices_count { C.failures choices.old < 2 ^ 64 - 1 }
    ensures inputs { IfOk result (λ o. o.opened.inputs ≡ inputs.now) }
    ensures within { IfOk result (λ o.
        All (λ c. c.hart < length o.opened.inputs) o.opened.choices.items) }
    ensures opened { IfOk result (λ o.
        IfSome (P.left program.old) (λ p. IfSome (C.left choices.old) (λ c.
        opening form (length inputs.now) p c ≡ Ok (o.opened.image, o.opened.choices.items)))) }
    ensures symbols { IfOk result (λ o. IfSome (P.left program.old) (λ p.
        o.symbols.items ≡ program_symbols form p)) }
    ensures refused { IfErr result (λ fault. IsRefusal fault
        → IfSome (P.left program.old) (λ p. IfSome (C.left choices.old) (λ c.
        opening form (length inputs.now) p c ≡ Err fault))) }
    // A fault of the program or of the number of inputs is that whatever the choices are.
    ensures of_program { IfErr result (λ fault. IsOfProgram fault
        → IfSome (P.left program.old) (λ p. program_opening form (length inputs.now) p ≡ Err fault)) }
    // A device is named only if it failed.
    ensures read { IfErr result (λ fault. IfNames fault
        (P.failures program.old < P.failures program.new)
        (C.failures choices.old < C.failures choices.new) ⊥ ⊥) }
    // A fault of the program or of the number of inputs comes before one of the choices' device.
    ensures program_first { result ≡ Err (CommandFault.Read Input.Choices)
        → IfSome (P.left program.old) (λ p. (image : ImageValue) × (program_of form p ≡ Ok image)) }
    ensures inputs_first { result ≡ Err (CommandFault.Read Input.Choices) → IsStartable inputs.now }
{
    let NamedText {
        program,
        inputs,
        text,
    } = open_named_text(alloc, form, inputs, program, choices)?;
    let choices = read_choices(alloc, &text, inputs.harts())?;
    Ok(NamedRun {
        opened: OpenRun {
            image: program.image,
            inputs,
            choices,
        },
        symbols: program.symbols,
    })
}
