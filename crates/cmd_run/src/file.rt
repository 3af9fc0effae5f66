//! `list` and `info`: from an ELF file to its listing or its facts.

ghost use Rattle.std.specs.Prelude.{◌≡◌, ◌≢◌, ◌-◌, ◌^◌, ◌<◌, Err, IfOk, IfErr, IfSome, string_bytes};
ghost use Rattle.cmd_run.specs.File.{ShowsFile};
ghost use Rattle.program_open.specs.Program.{program_of};
ghost use Rattle.program_open.specs.CommandFaults.{IfNames, IsRefusal};

use crate::info::{SymbolOrder, info_text};
use byte_io::{ReadFault, Source, Status, read_all};
use isa_disasm::list_image;
use program_open::{CommandFault, Input, ProgramForm, read_program};
use std::alloc::Allocator;

/// What is shown of a file.
#[derive(Clone, Copy, PartialEq, Eq)]
pub enum FileView {
    /// The lines of its executable segments.
    Listing,
    /// Its entry, its segments and its symbols, in the file's order.
    Facts,
    /// The same, but its symbols by rising address.
    FactsByAddress,
}

/// What is shown of an ELF file, or why it is invalid.
pub fn file_text<A: Allocator + Copy>(
    alloc: A,
    view: FileView,
    bytes: &[u8],
) -> Result<String<A>, CommandFault>
    ensures ok { IfOk result (λ text. ShowsFile view bytes.now (string_bytes text)) }
    ensures err { IfErr result (λ fault. fault ≢ CommandFault.Memory
        → program_of ProgramForm.Elf bytes.now ≡ Err fault) }
{
    let image = read_program(alloc, ProgramForm::Elf, bytes)?;
    let text = match view {
        FileView::Listing => list_image(alloc, &image),
        FileView::Facts => info_text(alloc, &image, bytes, SymbolOrder::OfFile),
        FileView::FactsByAddress => info_text(alloc, &image, bytes, SymbolOrder::ByAddress),
    };
    match text {
        Ok(text) => Ok(text),
        Err(_) => Err(CommandFault::Memory),
    }
}

/// `list` or `info`: reads an ELF file to its end, and returns what is shown of it.
pub fn file_engine<A: Allocator + Copy, P: Source>(
    alloc: A,
    view: FileView,
    file: &mut P,
) -> Result<(String<A>, Status), CommandFault>
    requires { P.failures file.old < 2 ^ 64 - 1 }
    ensures done { IfOk result (λ answer. answer.1 ≡ Status.Done) }
    ensures shown { IfOk result (λ answer. IfSome (P.left file.old) (λ b.
        ShowsFile view b (string_bytes answer.0))) }
    ensures refused { IfErr result (λ fault. IsRefusal fault
        → IfSome (P.left file.old) (λ b. program_of ProgramForm.Elf b ≡ Err fault)) }
    // A device is named only if it failed; the file is the only input.
    ensures read { IfErr result (λ fault. IfNames fault
        (P.failures file.old < P.failures file.new) ⊥ ⊥ ⊥) }
{
    let bytes = match read_all(alloc, file) {
        Ok(bytes) => bytes,
        Err(ReadFault::Device) => return Err(CommandFault::Read(Input::File)),
        Err(ReadFault::Memory) => return Err(CommandFault::Memory),
    };
    match file_text(alloc, view, &bytes) {
        Ok(text) => Ok((text, Status::Done)),
        Err(fault) => Err(fault),
    }
}
