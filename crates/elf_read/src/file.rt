//! ELF files as images.
ghost use Rattle.std.specs.Prelude.{◌≡◌, ◌+◌, ◌*◌, ◌<◌, ◌≤◌, ℕ, List, length, map, filter, IfOk};
ghost use Rattle.std.specs.Bool.{OnFalse};
ghost use Rattle.elf_read.specs.File.{loaded_image, headers_fault, is_table_outside, segment_of, byte_at, file_byte};
ghost use Rattle.image.specs.Image.{Gives};
ghost use Rattle.elf_read.specs.Number.{word_at, half_at};
ghost use Rattle.elf_read.specs.ProgramHeader.{is_loaded_segment};
ghost use Rattle.elf_read.specs.Codes.{E_PHOFF, E_PHNUM, HEADER_SIZE, PROGRAM_HEADER_SIZE};
ghost use Rattle.elf_read.specs.declared.program_header.ProgramHeader.{ProgramHeader};

use crate::elf::{E_ENTRY, E_PHNUM, E_PHOFF, PROGRAM_HEADER_SIZE, PT_LOAD};
use crate::header::check_header;
use crate::number::{half_at, word_at};
use crate::program_header::{
    ProgramHeader, any_dynamic, any_outside, load_spans, read_program_headers,
};
use image::{ElfFault, Image, Rights, Segment, check_space, image_of};
use std::alloc::{AllocError, Allocator};

/// The byte of a segment at an address is the file's byte at p_offset + (address - p_vaddr) if the
/// address is less than p_filesz bytes from p_vaddr, else 0.
pub fn a_segments_bytes_are_the_files()
    ensures { (bytes : List ℕ) (h : ProgramHeader) (a : ℕ) →
        byte_at (segment_of bytes h) a ≡ file_byte bytes h a }
{}

/// The image of an ELF file that is a static 32-bit RISC-V executable. Its segments are the
/// nonempty PT_LOADs, in the file's order.
///
/// Otherwise the fault is the first check that fails, in the order of `ElfFault`; a check runs only
/// after all before it have passed. Sections are ignored. Segment bytes are copied only after all
/// checks have passed. System V ELF, "ELF Header", "Program Header".
#[tactic(auto, using(crate::proofs::FileLemmas::file_is_sound, crate::proofs::FileLemmas::files_have_low), unfolding(crate::specs::File::loaded_image, crate::specs::File::elf_fault, crate::specs::File::file_image, crate::specs::File::program_headers_of))]
pub fn load<A: Allocator + Copy>(alloc: A, bytes: &[u8]) -> Result<Image<A>, ElfFault>
    ensures { Gives result (loaded_image bytes.now) }
{
    if let Some(fault) = check_header(bytes) {
        return Err(fault);
    }
    if is_table_outside(bytes) {
        return Err(ElfFault::OutsideFile);
    }
    let place = word_at(bytes, E_PHOFF);
    let Ok(headers) = read_program_headers(alloc, bytes, place, half_at(bytes, E_PHNUM)) else {
        return Err(ElfFault::Memory);
    };
    let entry = word_at(bytes, E_ENTRY);
    let Ok(fault) = check_program_headers(alloc, bytes.len(), entry, &headers) else {
        return Err(ElfFault::Memory);
    };
    if let Some(fault) = fault {
        return Err(fault);
    }
    let Ok(segments) = segments_of(alloc, bytes, &headers) else {
        return Err(ElfFault::Memory);
    };
    Ok(image_of(entry, segments))
}

// Whether the program headers lie past the end of the file. If not, they can be read.
#[tactic(auto, unfolding(crate::specs::File::is_table_outside))]
fn is_table_outside(bytes: &[u8]) -> bool
    requires { HEADER_SIZE ≤ length bytes.now }
    ensures test { result ≡ is_table_outside bytes.now }
    ensures fits { OnFalse result (0 < half_at bytes.now E_PHNUM →
        word_at bytes.now E_PHOFF + PROGRAM_HEADER_SIZE * half_at bytes.now E_PHNUM ≤ length bytes.now) }
{
    let count = half_at(bytes, E_PHNUM);
    let end = word_at(bytes, E_PHOFF) as u64 + PROGRAM_HEADER_SIZE as u64 * count as u64;
    count != 0 && end > bytes.len() as u64
}

// The first check of the program headers and the entry that fails, for a file of `len` bytes.
#[tactic(auto, unfolding(crate::specs::File::headers_fault))]
fn check_program_headers<A: Allocator + Copy>(
    alloc: A,
    len: usize,
    entry: u32,
    headers: &[ProgramHeader],
) -> Result<Option<ElfFault>, AllocError>
    ensures { IfOk result (λ fault. fault ≡ headers_fault len entry headers.now) }
{
    if any_outside(headers, len) {
        return Ok(Some(ElfFault::OutsideFile));
    }
    let spans = load_spans(alloc, headers)?;
    if let Some(fault) = check_space(alloc, &spans)? {
        return Ok(Some(fault));
    }
    if any_dynamic(headers) {
        return Ok(Some(ElfFault::Dynamic));
    }
    if entry % 4 != 0 {
        return Ok(Some(ElfFault::EntryAlign));
    }
    Ok(None)
}

// The segments that are not empty.
fn segments_of<A: Allocator + Copy>(
    alloc: A,
    bytes: &[u8],
    headers: &[ProgramHeader],
) -> Result<Vec<Segment<A>, A>, AllocError>
    ensures { IfOk result (λ v. v.items ≡ map (segment_of bytes.now) (filter is_loaded_segment headers.now)) }
{
    let mut segments = Vec::new(alloc);
    'headers: for header in headers {
        if header.kind == PT_LOAD && header.memory_size > 0 {
            segments.push(segment_of(alloc, bytes, *header)?)?;
        }
    }
    Ok(segments)
}

// A segment with its bytes of the file.
fn segment_of<A: Allocator>(
    alloc: A,
    bytes: &[u8],
    header: ProgramHeader,
) -> Result<Segment<A>, AllocError>
    ensures { IfOk result (λ s. s ≡ segment_of bytes.now header) }
{
    let (_, rest) = bytes.split_at(bytes.len().min(header.offset as usize));
    let (given, _) = rest.split_at(rest.len().min(header.file_size as usize));
    Ok(Segment {
        base: header.address,
        size: header.memory_size,
        rights: Rights::of_flags(header.flags),
        bytes: Vec::from_slice(alloc, given)?,
    })
}
