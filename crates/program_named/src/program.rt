//! A program with its symbols.

ghost use Rattle.std.specs.Prelude.{◌≡◌, ◌^◌, ◌-◌, ◌<◌, Ok, Err, IfOk, IfErr, IfSome};
ghost use Rattle.program_open.specs.Program.{program_of};
ghost use Rattle.program_open.specs.CommandFaults.{IfNames, IsRefusal};
ghost use Rattle.program_named.specs.Symbols.{program_symbols};

use byte_io::{ReadFault, Source, read_all};
use elf_read::{SymFault, Symbol, symbols};
use image::Image;
use program_open::{CommandFault, Input, ProgramForm, read_program};
use std::alloc::{AllocError, Allocator};

/// A program with its symbols.
#[derive(Drop)]
pub struct NamedProgram<A: Allocator> {
    /// The program's image.
    pub image: Image<A>,
    /// Its symbols, in the file's order; none of words in hexadecimal, and none if the file has no
    /// valid table.
    pub symbols: Vec<Symbol<A>, A>,
}

// The symbols of a program in this form.
fn program_symbols<A: Allocator + Copy>(
    alloc: A,
    form: ProgramForm,
    bytes: &[u8],
) -> Result<Vec<Symbol<A>, A>, AllocError>
    ensures { IfOk result (λ symbols. symbols.items ≡ program_symbols form bytes.now) }
{
    match form {
        ProgramForm::Hex => Ok(Vec::new(alloc)),
        ProgramForm::Elf => match symbols(alloc, bytes) {
            Ok(symbols) => Ok(symbols),
            Err(SymFault::NoTable) => Ok(Vec::new(alloc)),
            Err(SymFault::BadTable) => Ok(Vec::new(alloc)),
            Err(SymFault::Memory) => Err(AllocError),
        },
    }
}

/// Reads a program in this form to its end, and makes its image and its symbols, or returns its
/// fault.
pub fn read_named<A: Allocator + Copy, P: Source>(
    alloc: A,
    form: ProgramForm,
    program: &mut P,
) -> Result<NamedProgram<A>, CommandFault>
    requires { P.failures program.old < 2 ^ 64 - 1 }
    ensures image { IfOk result (λ o. IfSome (P.left program.old) (λ p.
        program_of form p ≡ Ok o.image)) }
    ensures symbols { IfOk result (λ o. IfSome (P.left program.old) (λ p.
        o.symbols.items ≡ program_symbols form p)) }
    ensures refused { IfErr result (λ fault. IsRefusal fault
        → IfSome (P.left program.old) (λ p. program_of form p ≡ Err fault)) }
    // The device is named only if it failed.
    ensures read { IfErr result (λ fault. IfNames fault
        (P.failures program.old < P.failures program.new) ⊥ ⊥ ⊥) }
{
    let bytes = match read_all(alloc, program) {
        Ok(bytes) => bytes,
        Err(ReadFault::Device) => return Err(CommandFault::Read(Input::File)),
        Err(ReadFault::Memory) => return Err(CommandFault::Memory),
    };
    let image = read_program(alloc, form, &bytes)?;
    match program_symbols(alloc, form, &bytes) {
        Ok(symbols) => Ok(NamedProgram { image, symbols }),
        Err(AllocError) => Err(CommandFault::Memory),
    }
}
