//! The symbols of a file.
ghost use Rattle.std.specs.Prelude.{◌≡◌, ◌+◌, ◌*◌, ◌≤◌, length, []};
ghost use Rattle.elf_read.specs.SymbolTable.{symbols_of, symbols_in, symbols_named, symbols_from, is_bad_table, IsGiven};
ghost use Rattle.std.specs.Bool.{OnFalse};

use crate::elf::{
    E_SHENTSIZE, E_SHNUM, E_SHOFF, HEADER_SIZE, SECTION_HEADER_SIZE, SHT_STRTAB, ST_NAME,
    SYMBOL_SIZE,
};
use crate::name::name_at;
use crate::number::{half_at, word_at};
use crate::section::{
    SectionHeader, bytes_of, find_symbol_table, is_past_end, read_sections, section_of_number,
};
use crate::symbol::{SymFault, Symbol};
use crate::symbol_fields::read_symbol;
use std::alloc::Allocator;

/// The named symbols of a file's first symbol table, in the table's order.
///
/// `NoTable`: e_shoff or e_shnum is 0, or no section is a symbol table. `BadTable`: the file has no
/// whole header; a size is invalid (40 bytes for a section header, 16 for a symbol, the table a
/// multiple of it); the section headers, the table or its names lie past the end of the file; the
/// table's link is not a string table; or a name is not ended by a zero byte or is not UTF-8. The
/// checks of `load` are not made. System V ELF, "Sections", "String Table", "Symbol Table".
#[tactic(auto, unfolding(crate::specs::SymbolTable::symbols_of))]
pub fn symbols<A: Allocator + Copy>(alloc: A, bytes: &[u8]) -> Result<Vec<Symbol<A>, A>, SymFault>
    ensures { IsGiven result (symbols_of bytes.now) }
{
    if bytes.len() < HEADER_SIZE as usize {
        return Err(SymFault::BadTable);
    }
    let place = word_at(bytes, E_SHOFF);
    let count = half_at(bytes, E_SHNUM);
    if place == 0 || count == 0 {
        return Err(SymFault::NoTable);
    }
    let end = place as u64 + SECTION_HEADER_SIZE as u64 * count as u64;
    if half_at(bytes, E_SHENTSIZE) != SECTION_HEADER_SIZE || end > bytes.len() as u64 {
        return Err(SymFault::BadTable);
    }
    let Ok(sections) = read_sections(alloc, bytes, place, count) else {
        return Err(SymFault::Memory);
    };
    symbols_in(alloc, bytes, &sections)
}

// The symbols of the first symbol table of these sections.
#[tactic(auto, unfolding(crate::specs::SymbolTable::symbols_in))]
fn symbols_in<A: Allocator + Copy>(
    alloc: A,
    bytes: &[u8],
    sections: &[SectionHeader],
) -> Result<Vec<Symbol<A>, A>, SymFault>
    ensures { IsGiven result (symbols_in bytes.now sections.now) }
{
    let Some(table) = find_symbol_table(sections) else {
        return Err(SymFault::NoTable);
    };
    if is_bad_table(table, bytes.len()) {
        return Err(SymFault::BadTable);
    }
    let Some(names) = section_of_number(sections, table.link) else {
        return Err(SymFault::BadTable);
    };
    if names.kind != SHT_STRTAB || is_past_end(names, bytes.len()) {
        return Err(SymFault::BadTable);
    }
    let count = table.size / SYMBOL_SIZE;
    read_symbols(
        alloc,
        bytes,
        bytes_of(bytes, names),
        table.offset as usize,
        count,
    )
}

// Whether a symbol table's sizes are invalid, or it lies past the end of a file of `len` bytes.
fn is_bad_table(table: SectionHeader, len: usize) -> bool
    ensures test { result ≡ is_bad_table len table }
    ensures fits { OnFalse result (table.offset + table.size ≤ len) }
{
    table.entry_size != SYMBOL_SIZE || table.size % SYMBOL_SIZE != 0 || is_past_end(table, len)
}

// The named ones of `count` symbols from an offset on.
fn read_symbols<A: Allocator + Copy>(
    alloc: A,
    bytes: &[u8],
    names: &[u8],
    start: usize,
    count: u32,
) -> Result<Vec<Symbol<A>, A>, SymFault>
    requires { start + 16 * count ≤ length bytes.now }
    ensures { IsGiven result (symbols_from names.now bytes.now [] start count) }
{
    let mut symbols = Vec::new(alloc);
    let mut at = start;
    'symbols: for _ in 0..count {
        let Some(name) = name_at(names, word_at(bytes, at + ST_NAME) as usize) else {
            return Err(SymFault::BadTable);
        };
        let place = at;
        at += SYMBOL_SIZE as usize;
        if name.is_empty() {
            continue;
        }
        let Ok(name) = String::from_str(alloc, name) else {
            return Err(SymFault::Memory);
        };
        let Ok(()) = symbols.push(read_symbol(bytes, place, name)) else {
            return Err(SymFault::Memory);
        };
    }
    Ok(symbols)
}
