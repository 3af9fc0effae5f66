//! Program headers.
ghost use Rattle.std.specs.Prelude.{◌≡◌, ◌+◌, ◌*◌, ◌<◌, ◌≤◌, length, map, filter, IfOk};
ghost use Rattle.std.specs.List.{list_any};
ghost use Rattle.elf_read.specs.ProgramHeader.{program_header_at, program_headers_from, is_load, is_dynamic, is_outside, header_span};

use crate::elf::{
    P_FILESZ, P_FLAGS, P_MEMSZ, P_OFFSET, P_TYPE, P_VADDR, PROGRAM_HEADER_SIZE, PT_DYNAMIC,
    PT_INTERP, PT_LOAD,
};
use crate::number::word_at;
use image::Span;
use std::alloc::{AllocError, Allocator};

/// The fields that are read of a program header: all but p_paddr and p_align (System V ELF,
/// "Program Header").
#[derive(Clone, Copy, PartialEq, Eq)]
pub struct ProgramHeader {
    /// The kind of the header (p_type).
    pub kind: u32,
    /// The offset of the segment's bytes in the file (p_offset).
    pub offset: u32,
    /// The segment's first address (p_vaddr).
    pub address: u32,
    /// The number of bytes in the file (p_filesz).
    pub file_size: u32,
    /// The size in memory, in bytes (p_memsz).
    pub memory_size: u32,
    /// The rights in the low three bits (p_flags).
    pub flags: u32,
}

// The program header at an offset.
#[tactic(auto, unfolding(crate::specs::ProgramHeader::program_header_at))]
fn program_header_at(bytes: &[u8], place: usize) -> ProgramHeader
    requires { place + 32 ≤ length bytes.now }
    ensures { result ≡ program_header_at bytes.now place }
{
    ProgramHeader {
        kind: word_at(bytes, place + P_TYPE),
        offset: word_at(bytes, place + P_OFFSET),
        address: word_at(bytes, place + P_VADDR),
        file_size: word_at(bytes, place + P_FILESZ),
        memory_size: word_at(bytes, place + P_MEMSZ),
        flags: word_at(bytes, place + P_FLAGS),
    }
}

/// `count` program headers from an offset on. Fails when out of memory.
pub fn read_program_headers<A: Allocator>(
    alloc: A,
    bytes: &[u8],
    place: u32,
    count: u16,
) -> Result<Vec<ProgramHeader, A>, AllocError>
    requires { 0 < count → place + 32 * count ≤ length bytes.now }
    ensures { IfOk result (λ v. v.items ≡ program_headers_from bytes.now place count) }
{
    let mut headers = Vec::with_capacity(alloc, count as usize)?;
    let mut at = place as usize;
    'headers: for _ in 0..count {
        headers.push(program_header_at(bytes, at))?;
        at += PROGRAM_HEADER_SIZE as usize;
    }
    Ok(headers)
}

/// Whether bytes of a segment lie past the end of a file of `len` bytes.
pub fn any_outside(headers: &[ProgramHeader], len: usize) -> bool
    ensures { result ≡ list_any (is_outside len) headers.now }
{
    headers.iter().any(|h| h.kind == PT_LOAD
        && h.file_size > 0
        && h.offset as u64 + h.file_size as u64 > len as u64)
}

/// Whether the file needs a dynamic linker.
pub fn any_dynamic(headers: &[ProgramHeader]) -> bool
    ensures { result ≡ list_any is_dynamic headers.now }
{
    headers
        .iter()
        .any(|h| h.kind == PT_DYNAMIC || h.kind == PT_INTERP)
}

/// The spans of the loadable segments, for the checks of places. Fails when out of memory.
pub fn load_spans<A: Allocator>(
    alloc: A,
    headers: &[ProgramHeader],
) -> Result<Vec<Span, A>, AllocError>
    ensures { IfOk result (λ v. v.items ≡ map header_span (filter is_load headers.now)) }
{
    let mut spans = Vec::with_capacity(alloc, headers.len())?;
    'headers: for header in headers {
        if header.kind == PT_LOAD {
            spans.push(Span {
                base: header.address,
                size: header.memory_size,
                file_size: header.file_size as usize,
            })?;
        }
    }
    Ok(spans)
}
