//! The parts after the data: the symbol table, the names, and the section headers.
ghost use Rattle.std.specs.Prelude.{◌≡◌, ◌+◌, ◌-◌, ◌++◌, ◌≤◌, ◌<◌, ◌^◌, ◌%◌, OnOk, IfOk};
ghost use Rattle.elf_write.specs.Field.{bytes_of_all};
ghost use Rattle.elf_write.specs.Section.{section_fields, section_names, data_end, tables_of, table_bytes, joined_tables, symbols_at, names_at, section_names_at, sections_at, own_sections, table_sections};

use crate::field::{Field, write_fields, write_zeros};
use crate::layout::{PAGE, layout_of, word_up};
use crate::table::Tables;
use asm_assemble::{Program, TEXT_BASE};
use elf_read::elf::{
    SHF_ALLOC, SHF_EXECINSTR, SHF_WRITE, SHT_NOBITS, SHT_PROGBITS, SHT_STRTAB, SHT_SYMTAB,
    SYMBOL_SIZE,
};
use std::alloc::{AllocError, Allocator};

// A section header, its fields in the file's order.
#[derive(Clone, Copy)]
struct SectionHeader {
    name: u32,
    kind: u32,
    flags: u32,
    address: u32,
    offset: u32,
    size: u32,
    link: u32,
    info: u32,
    align: u32,
    entry_size: u32,
}

/// The offsets of the parts after the data, in bytes.
#[derive(Clone, Copy, PartialEq, Eq)]
pub struct TablePlaces {
    pub symbols: u128,
    pub names: u128,
    pub section_names: u128,
    pub sections: u128,
}

/// The bytes between the data and the section headers. Fails when out of memory.
#[tactic(auto, using(crate::proofs::SectionLemmas::padded))]
pub fn table_bytes<A: Allocator + Copy>(
    alloc: A,
    program: &Program<A>,
    tables: &Tables<A>,
) -> Result<Vec<u8, A>, AllocError>
    requires { tables.now ≡ tables_of program.now }
    ensures { IfOk result (λ v. v.items ≡ table_bytes program.now) }
{
    let mut out = joined_tables(alloc, program, tables)?;
    let written = data_end(program) as usize + out.len();
    write_zeros(&mut out, (4 - written % 4) % 4)?;
    Ok(out)
}

// The bytes between the data and the zero bytes before the section headers.
#[tactic(auto, unfolding(crate::specs::Section::symbols_at))]
fn joined_tables<A: Allocator + Copy>(
    alloc: A,
    program: &Program<A>,
    tables: &Tables<A>,
) -> Result<Vec<u8, A>, AllocError>
    requires { tables.now ≡ tables_of program.now }
    ensures { IfOk result (λ v. v.items ≡ joined_tables program.now) }
{
    let end = data_end(program);
    let mut out = Vec::new(alloc);
    write_zeros(&mut out, (word_up(end) - end) as usize)?;
    out.extend_from_slice(&tables.entries)?;
    out.extend_from_slice(&tables.names)?;
    write_section_names(&mut out)?;
    Ok(out)
}

// The offset of the data's end.
#[tactic(auto, unfolding(crate::specs::Section::data_end))]
fn data_end<A: Allocator>(program: &Program<A>) -> u32
    ensures value { result ≡ data_end program.now }
    ensures near { result ≤ 2 ^ 26 - 4 }
{
    let layout = layout_of(program);
    PAGE + layout.data_distance + layout.bytes
}

/// The offsets of the parts after the data, given the bytes between the data and the section
/// headers.
#[tactic(auto, using(crate::proofs::SectionLemmas::tables_end), unfolding(crate::specs::Section::symbols_at, crate::specs::Section::names_at, crate::specs::Section::section_names_at))]
pub fn table_places<A: Allocator>(
    program: &Program<A>,
    tables: &Tables<A>,
    between: &[u8],
) -> TablePlaces
    requires tables { tables.now ≡ tables_of program.now }
    requires between { between.now ≡ table_bytes program.now }
    ensures symbols { result.symbols ≡ symbols_at program.now }
    ensures names { result.names ≡ names_at program.now }
    ensures section_names { result.section_names ≡ section_names_at program.now }
    ensures sections { result.sections ≡ sections_at program.now }
{
    let end = data_end(program);
    let sections = end as u128 + between.len() as u128;
    let symbols = word_up(end) as u128;
    let names = symbols + tables.entries.len() as u128;
    let section_names = names + tables.names.len() as u128;
    TablePlaces {
        symbols,
        names,
        section_names,
        sections,
    }
}

// Appends the names of the sections.
#[tactic(auto, unfolding(crate::specs::Section::section_names))]
fn write_section_names<A: Allocator>(out: &mut Vec<u8, A>) -> Result<(), AllocError>
    ensures { OnOk result (out.new.items ≡ out.old.items ++ section_names) }
{
    out.extend_from_slice(b"\0.text\0.data\0.bss\0.symtab\0.strtab\0.shstrtab\0")
}

/// Appends the headers of the null section and of the program's own sections. Fails when out of
/// memory.
#[tactic(auto, unfolding(crate::specs::Section::own_sections, crate::specs::Section::data_end))]
pub fn write_own_sections<A: Allocator>(
    out: &mut Vec<u8, A>,
    program: &Program<A>,
) -> Result<(), AllocError>
    ensures { OnOk result (out.new.items ≡ out.old.items ++ own_sections program.now) }
{
    let layout = layout_of(program);
    let distance = layout.data_distance;
    let zeros_distance = word_up(distance + layout.bytes);
    write_zeros(out, 40)?;
    write_section(
        out,
        SectionHeader {
            name: 1,
            kind: SHT_PROGBITS,
            flags: SHF_ALLOC + SHF_EXECINSTR,
            address: TEXT_BASE,
            offset: PAGE,
            size: layout.text,
            link: 0,
            info: 0,
            align: 4,
            entry_size: 0,
        },
    )?;
    write_section(
        out,
        SectionHeader {
            name: 7,
            kind: SHT_PROGBITS,
            flags: SHF_WRITE + SHF_ALLOC,
            address: TEXT_BASE + distance,
            offset: PAGE + distance,
            size: layout.bytes,
            link: 0,
            info: 0,
            align: 4,
            entry_size: 0,
        },
    )?;
    write_section(
        out,
        SectionHeader {
            name: 13,
            kind: SHT_NOBITS,
            flags: SHF_WRITE + SHF_ALLOC,
            address: TEXT_BASE + zeros_distance,
            offset: PAGE + distance + layout.bytes,
            size: program.zeros(),
            link: 0,
            info: 0,
            align: 4,
            entry_size: 0,
        },
    )
}

/// Appends the headers of the symbol table, its names, and the sections' names. Fails when out of
/// memory.
#[tactic(auto, unfolding(crate::specs::Section::table_sections))]
pub fn write_table_sections<A: Allocator>(
    out: &mut Vec<u8, A>,
    program: &Program<A>,
    tables: &Tables<A>,
    places: TablePlaces,
) -> Result<(), AllocError>
    requires tables { tables.now ≡ tables_of program.now }
    requires symbols { places.symbols ≡ symbols_at program.now }
    requires names { places.names ≡ names_at program.now }
    requires section_names { places.section_names ≡ section_names_at program.now }
    ensures { OnOk result (out.new.items ≡ out.old.items ++ table_sections program.now) }
{
    write_section(
        out,
        SectionHeader {
            name: 18,
            kind: SHT_SYMTAB,
            flags: 0,
            address: 0,
            offset: low_word(places.symbols),
            size: low_word(tables.entries.len() as u128),
            link: 5,
            info: tables.first_global,
            align: 4,
            entry_size: SYMBOL_SIZE,
        },
    )?;
    write_section(
        out,
        SectionHeader {
            name: 26,
            kind: SHT_STRTAB,
            flags: 0,
            address: 0,
            offset: low_word(places.names),
            size: low_word(tables.names.len() as u128),
            link: 0,
            info: 0,
            align: 1,
            entry_size: 0,
        },
    )?;
    write_section(
        out,
        SectionHeader {
            name: 34,
            kind: SHT_STRTAB,
            flags: 0,
            address: 0,
            offset: low_word(places.section_names),
            size: 44,
            link: 0,
            info: 0,
            align: 1,
            entry_size: 0,
        },
    )
}

/// A number modulo 2^32.
pub fn low_word(number: u128) -> u32
    ensures { result ≡ number % 2 ^ 32 }
{
    (number % 0x1_0000_0000) as u32
}

// Appends a section header.
#[tactic(auto, unfolding(crate::specs::Section::section_fields))]
fn write_section<A: Allocator>(
    out: &mut Vec<u8, A>,
    header: SectionHeader,
) -> Result<(), AllocError>
    ensures { OnOk result (out.new.items ≡ out.old.items ++ bytes_of_all (section_fields header)) }
{
    write_fields(
        out,
        &[
            Field::Word(header.name),
            Field::Word(header.kind),
            Field::Word(header.flags),
            Field::Word(header.address),
            Field::Word(header.offset),
            Field::Word(header.size),
            Field::Word(header.link),
            Field::Word(header.info),
            Field::Word(header.align),
            Field::Word(header.entry_size),
        ],
    )
}
