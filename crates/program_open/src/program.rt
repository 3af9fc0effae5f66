//! Programs, as words in hexadecimal or as ELF files.

ghost use Rattle.std.specs.Prelude.{◌≡◌, ◌≢◌, ◌^◌, ◌-◌, ◌<◌, Ok, Err, IfOk, IfErr, IfSome};
ghost use Rattle.program_open.specs.Program.{program_of};
ghost use Rattle.program_open.specs.CommandFaults.{IfNames, IsRefusal};

use crate::command_fault::{CommandFault, Input};
use crate::hex::read_hex;
use crate::hex_program::hex_image;
use byte_io::{ReadFault, Source, read_all};
use elf_read::load;
use image::Image;
use std::alloc::Allocator;

/// The form of a program.
#[derive(Clone, Copy, PartialEq, Eq)]
pub enum ProgramForm {
    /// Words in hexadecimal, at the beginning of one segment.
    Hex,
    /// An ELF file.
    Elf,
}

/// The image of a program in this form, or its fault.
pub fn read_program<A: Allocator + Copy>(
    alloc: A,
    form: ProgramForm,
    bytes: &[u8],
) -> Result<Image<A>, CommandFault>
    ensures ok { IfOk result (λ image. program_of form bytes.now ≡ Ok image) }
    ensures err { IfErr result (λ fault. fault ≢ CommandFault.Memory
        → program_of form bytes.now ≡ Err fault) }
{
    match form {
        ProgramForm::Hex => read_hex_program(alloc, bytes),
        ProgramForm::Elf => read_file(alloc, bytes),
    }
}

/// Reads a program in this form to its end and makes its image. The bytes are freed before the
/// image is used.
pub fn read_image<A: Allocator + Copy, P: Source>(
    alloc: A,
    form: ProgramForm,
    program: &mut P,
) -> Result<Image<A>, CommandFault>
    requires { P.failures program.old < 2 ^ 64 - 1 }
    ensures ok { IfOk result (λ image. IfSome (P.left program.old) (λ p. program_of form p ≡ Ok image)) }
    ensures refused { IfErr result (λ fault. IsRefusal fault
        → IfSome (P.left program.old) (λ p. program_of form p ≡ Err fault)) }
    ensures read { IfErr result (λ fault. IfNames fault
        (P.failures program.old < P.failures program.new) ⊥ ⊥ ⊥) }
{
    let bytes = match read_all(alloc, program) {
        Ok(bytes) => bytes,
        Err(ReadFault::Device) => return Err(CommandFault::Read(Input::File)),
        Err(ReadFault::Memory) => return Err(CommandFault::Memory),
    };
    read_program(alloc, form, &bytes)
}

// The image of words in hexadecimal.
fn read_hex_program<A: Allocator + Copy>(alloc: A, bytes: &[u8]) -> Result<Image<A>, CommandFault>
    ensures ok { IfOk result (λ image. program_of ProgramForm.Hex bytes.now ≡ Ok image) }
    ensures err { IfErr result (λ fault. fault ≢ CommandFault.Memory
        → program_of ProgramForm.Hex bytes.now ≡ Err fault) }
{
    let words = read_hex(alloc, bytes)?;
    match hex_image(alloc, &words) {
        Ok(image) => Ok(image),
        Err(_) => Err(CommandFault::Memory),
    }
}

// The image of an ELF file.
#[tactic(auto, using(crate::proofs::ProgramLemmas::file_fails, crate::proofs::ProgramLemmas::file_loads))]
fn read_file<A: Allocator + Copy>(alloc: A, bytes: &[u8]) -> Result<Image<A>, CommandFault>
    ensures ok { IfOk result (λ image. program_of ProgramForm.Elf bytes.now ≡ Ok image) }
    ensures err { IfErr result (λ fault. fault ≢ CommandFault.Memory
        → program_of ProgramForm.Elf bytes.now ≡ Err fault) }
{
    match load(alloc, bytes) {
        Ok(image) => Ok(image),
        Err(fault) => Err(CommandFault::from(fault)),
    }
}
