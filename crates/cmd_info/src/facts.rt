//! `info --json`: from an ELF file to the object of its facts.

ghost use Rattle.std.specs.Prelude.{◌≡◌, ◌≢◌, ◌++◌, ◌∷◌, [], ◌-◌, ◌^◌, ◌<◌, codes, decimal, map, Err, IfErr, IfOk, IfSome, OnOk};
ghost use Rattle.cmd_info.specs.Facts.{facts_object, library_value, segment_object, symbols_value, ShowsFileObject, ShowsObject};
ghost use Rattle.cmd_run.specs.Info.{symbols_found};
ghost use Rattle.elf_read.specs.SymbolTable.{symbols_of};
ghost use Rattle.program_open.specs.CommandFaults.{IfNames, IsRefusal};
ghost use Rattle.program_open.specs.Program.{program_of};
ghost use Rattle.trace_text.specs.Composites.{array, member};

use crate::members::{push_found, push_library, push_segments};
use byte_io::{ReadFault, Source, read_all};
use cmd_json::{push_key, push_number_member};
use cmd_run::{SymbolOrder, library_of, shown_symbols};
use elf_read::{SymFault, Symbol};
use image::{Image, Segment};
use object_library::Kind;
use program_open::{CommandFault, Input, ProgramForm, read_program};
use std::alloc::{AllocError, Allocator};

// Appends the segments.
#[tactic(auto, unfolding(trace_text::specs::Composites::member))]
fn push_parts<A: Allocator + Copy>(
    alloc: A,
    out: &mut Vec<u8, A>,
    segments: &[Segment<A>],
) -> Result<(), AllocError>
    ensures { OnOk result (out.new.items ≡ out.old.items
        ++ member (codes "segments") (array (map segment_object segments.now))) }
{
    push_key(out, "segments")?;
    push_segments(alloc, out, segments)
}

// Appends the entry and the segments, behind the opening brace.
fn push_image<A: Allocator + Copy>(
    alloc: A,
    out: &mut Vec<u8, A>,
    image: &Image<A>,
) -> Result<(), AllocError>
    ensures { OnOk result (out.new.items ≡ out.old.items
        ++ 123 ∷ (member (codes "entry") (decimal image.now.entry)
        ++ 44 ∷ member (codes "segments") (array (map segment_object image.now.segments)))) }
{
    out.push(b'{')?;
    push_number_member(out, "entry", u64::from(image.entry()))?;
    out.push(b',')?;
    push_parts(alloc, out, image.segments())
}

// Appends the symbols. Fails when out of memory, or if the symbols did.
#[tactic(auto, unfolding(trace_text::specs::Composites::member))]
fn push_symbols<A: Allocator>(
    out: &mut Vec<u8, A>,
    found: Result<Vec<Symbol<A>, A>, SymFault>,
) -> Result<(), AllocError>
    ensures added { OnOk result (out.new.items ≡ out.old.items
        ++ member (codes "symbols") (symbols_value (symbols_found found))) }
    ensures known { IfOk result (λ _. found ≢ Err SymFault.Memory) }
{
    push_key(out, "symbols")?;
    push_found(out, found)
}

// Appends the kind of object.
#[tactic(auto, unfolding(trace_text::specs::Composites::member))]
fn push_kind<A: Allocator>(out: &mut Vec<u8, A>, library: Option<Kind>) -> Result<(), AllocError>
    ensures { OnOk result (out.new.items ≡ out.old.items
        ++ member (codes "library") (library_value library)) }
{
    push_key(out, "library")?;
    push_library(out, library)
}

// Appends the symbols and the kind of object, the closing brace and LF. Fails when out of memory,
// or if the symbols did.
fn push_rest<A: Allocator>(
    out: &mut Vec<u8, A>,
    found: Result<Vec<Symbol<A>, A>, SymFault>,
    library: Option<Kind>,
) -> Result<(), AllocError>
    ensures added { OnOk result (out.new.items ≡ out.old.items
        ++ (member (codes "symbols") (symbols_value (symbols_found found))
        ++ 44 ∷ (member (codes "library") (library_value library) ++ 125 ∷ 10 ∷ []))) }
    ensures known { IfOk result (λ _. found ≢ Err SymFault.Memory) }
{
    push_symbols(out, found)?;
    out.push(b',')?;
    push_kind(out, library)?;
    out.extend_from_slice(b"}\n")
}

// The facts of an image with these symbols, given the kind of object that it is.
#[tactic(auto, unfolding(crate::specs::Facts::facts_object))]
fn object_of<A: Allocator + Copy>(
    alloc: A,
    image: &Image<A>,
    found: Result<Vec<Symbol<A>, A>, SymFault>,
    library: Option<Kind>,
) -> Result<Vec<u8, A>, AllocError>
    ensures text { IfOk result (λ text.
        text.items ≡ facts_object image.now (symbols_found found) library) }
    ensures known { IfOk result (λ _. found ≢ Err SymFault.Memory) }
{
    let mut out = Vec::new(alloc);
    push_image(alloc, &mut out, image)?;
    out.push(b',')?;
    push_rest(&mut out, found, library)?;
    Ok(out)
}

/// The facts of a file's image as an object: its entry, its segments in the file's order, the
/// file's symbols in an order, and the kind of object that it is.
pub fn facts_object<A: Allocator + Copy>(
    alloc: A,
    image: &Image<A>,
    bytes: &[u8],
    order: SymbolOrder,
) -> Result<Vec<u8, A>, AllocError>
    ensures { IfOk result (λ text. ShowsObject order image.now (symbols_of bytes.now) text.items) }
{
    let library = library_of(image);
    let found = shown_symbols(alloc, bytes, order);
    let text = object_of(alloc, image, found, library)?;
    Ok(text)
}

// The facts of a file of these bytes, or why it is invalid.
fn file_object<A: Allocator + Copy>(
    alloc: A,
    order: SymbolOrder,
    bytes: &[u8],
) -> Result<Vec<u8, A>, CommandFault>
    ensures ok { IfOk result (λ text. ShowsFileObject order bytes.now text.items) }
    ensures err { IfErr result (λ fault. fault ≢ CommandFault.Memory
        → program_of ProgramForm.Elf bytes.now ≡ Err fault) }
{
    let image = read_program(alloc, ProgramForm::Elf, bytes)?;
    match facts_object(alloc, &image, bytes, order) {
        Ok(text) => Ok(text),
        Err(AllocError) => Err(CommandFault::Memory),
    }
}

/// `info --json`: reads an ELF file to its end, and returns the object of its facts.
pub fn facts_engine<A: Allocator + Copy, P: Source>(
    alloc: A,
    order: SymbolOrder,
    file: &mut P,
) -> Result<Vec<u8, A>, CommandFault>
    requires { P.failures file.old < 2 ^ 64 - 1 }
    ensures shown { IfOk result (λ text. IfSome (P.left file.old) (λ b.
        ShowsFileObject order b text.items)) }
    ensures refused { IfErr result (λ fault. IsRefusal fault
        → IfSome (P.left file.old) (λ b. program_of ProgramForm.Elf b ≡ Err fault)) }
    // A device is named only if it failed; the file is the only input.
    ensures read { IfErr result (λ fault. IfNames fault
        (P.failures file.old < P.failures file.new) ⊥ ⊥ ⊥) }
{
    let bytes = match read_all(alloc, file) {
        Ok(bytes) => bytes,
        Err(ReadFault::Device) => return Err(CommandFault::Read(Input::File)),
        Err(ReadFault::Memory) => return Err(CommandFault::Memory),
    };
    match file_object(alloc, order, &bytes) {
        Ok(text) => Ok(text),
        Err(fault) => Err(fault),
    }
}
