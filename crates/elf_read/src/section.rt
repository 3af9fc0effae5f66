//! Section headers.
ghost use Rattle.std.specs.Prelude.{◌≡◌, ◌+◌, ◌*◌, ◌≤◌, length, IfOk};
ghost use Rattle.std.specs.List.{find, slice_get};
ghost use Rattle.elf_read.specs.Section.{section_at, sections_from, is_symbol_table, ends_behind_file, section_bytes};

use crate::elf::{
    SECTION_HEADER_SIZE, SH_ENTSIZE, SH_LINK, SH_OFFSET, SH_SIZE, SH_TYPE, SHT_SYMTAB,
};
use crate::number::word_at;
use std::alloc::{AllocError, Allocator};

/// The fields that are read of a section header (System V ELF, "Sections").
#[derive(Clone, Copy, PartialEq, Eq)]
pub struct SectionHeader {
    /// The kind of the section (sh_type).
    pub kind: u32,
    /// The offset of its bytes in the file (sh_offset).
    pub offset: u32,
    /// The number of its bytes (sh_size).
    pub size: u32,
    /// The index of another section (sh_link); a symbol table's names are there.
    pub link: u32,
    /// The size of its entries, in bytes (sh_entsize).
    pub entry_size: u32,
}

// The section header at an offset.
#[tactic(auto, unfolding(crate::specs::Section::section_at))]
fn section_at(bytes: &[u8], place: usize) -> SectionHeader
    requires { place + 40 ≤ length bytes.now }
    ensures { result ≡ section_at bytes.now place }
{
    SectionHeader {
        kind: word_at(bytes, place + SH_TYPE),
        offset: word_at(bytes, place + SH_OFFSET),
        size: word_at(bytes, place + SH_SIZE),
        link: word_at(bytes, place + SH_LINK),
        entry_size: word_at(bytes, place + SH_ENTSIZE),
    }
}

/// `count` section headers from an offset on. Fails when out of memory.
pub fn read_sections<A: Allocator>(
    alloc: A,
    bytes: &[u8],
    place: u32,
    count: u16,
) -> Result<Vec<SectionHeader, A>, AllocError>
    requires { place + 40 * count ≤ length bytes.now }
    ensures { IfOk result (λ v. v.items ≡ sections_from bytes.now place count) }
{
    let mut sections = Vec::with_capacity(alloc, count as usize)?;
    let mut at = place as usize;
    'sections: for _ in 0..count {
        sections.push(section_at(bytes, at))?;
        at += SECTION_HEADER_SIZE as usize;
    }
    Ok(sections)
}

/// The first symbol table.
pub fn find_symbol_table(sections: &[SectionHeader]) -> Option<SectionHeader>
    ensures { result ≡ find is_symbol_table sections.now }
{
    'sections: for section in sections {
        if section.kind == SHT_SYMTAB {
            return Some(*section);
        }
    }
    None
}

/// The section with an index.
pub fn section_of_number(sections: &[SectionHeader], number: u32) -> Option<SectionHeader>
    ensures { result ≡ slice_get sections.now number }
{
    if (number as usize) < sections.len() {
        Some(sections[number as usize])
    } else {
        None
    }
}

/// Whether a section lies past the end of a file of `len` bytes.
pub fn is_past_end(section: SectionHeader, len: usize) -> bool
    ensures { result ≡ ends_behind_file len section }
{
    section.offset as u64 + section.size as u64 > len as u64
}

/// The bytes of a section that ends within the file.
pub fn bytes_of(bytes: &[u8], section: SectionHeader) -> &[u8]
    requires { section.offset + section.size ≤ length bytes.now }
    ensures { result.now ≡ section_bytes bytes.now section }
{
    let (_, rest) = bytes.split_at(section.offset as usize);
    let (own, _) = rest.split_at(section.size as usize);
    own
}
