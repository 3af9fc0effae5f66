//! Written files.
ghost use Rattle.std.specs.Prelude.{◌≡◌, ◌++◌, OnOk, IfOk};
ghost use Rattle.elf_read.specs.File.{loaded_image};
ghost use Rattle.elf_write.specs.File.{file, content, program_image};
ghost use Rattle.elf_write.specs.Section.{own_sections, table_sections};

use crate::field::write_zeros;
use crate::layout::layout_of;
use crate::section::{
    low_word, table_bytes, table_places, write_own_sections, write_table_sections,
};
use crate::segment::write_front;
use crate::table::symbol_tables;
use asm_assemble::Program;
use std::alloc::{AllocError, Allocator};

/// The bytes of a program's ELF file: its header, up to two program headers, the text at 4096, the
/// data, the symbol table, the names, and seven section headers. Offsets of sections and names
/// beyond 4 GB are modulo 2^32.
///
/// The file loads as the program's image if the entry is a multiple of 4; otherwise it is refused
/// for its entry. Fails when out of memory. System V ELF, "ELF Header", "Program Header",
/// "Sections", "Symbol Table".
#[tactic(auto, using(crate::proofs::LoadLemmas::file_loads))]
pub fn write_elf<A: Allocator + Copy>(
    alloc: A,
    program: &Program<A>,
) -> Result<Vec<u8, A>, AllocError>
    ensures layout { IfOk result (λ v. v.items ≡ file program.now) }
    ensures loads { IfOk result (λ v. loaded_image v.items ≡ program_image program.now) }
{
    // The proof of the law needs the program's sizes, and that its entry is an address; these calls
    // give them.
    let _text = program.text();
    let _entry = program.entry();
    let out = file_of(alloc, program)?;
    Ok(out)
}

// The bytes of the file.
#[tactic(auto, unfolding(crate::specs::File::file, crate::specs::File::file_with))]
fn file_of<A: Allocator + Copy>(alloc: A, program: &Program<A>) -> Result<Vec<u8, A>, AllocError>
    ensures { IfOk result (λ v. v.items ≡ file program.now) }
{
    let tables = symbol_tables(alloc, program.symbols())?;
    let between = table_bytes(alloc, program, &tables)?;
    let places = table_places(program, &tables, &between);
    let mut out = Vec::new(alloc);
    write_front(&mut out, program, low_word(places.sections))?;
    write_content(&mut out, program)?;
    out.extend_from_slice(&between)?;
    write_own_sections(&mut out, program)?;
    write_table_sections(&mut out, program, &tables, places)?;
    Ok(out)
}

// Appends the text, zero bytes up to the data, and the data.
#[tactic(auto, unfolding(crate::specs::File::content))]
fn write_content<A: Allocator>(out: &mut Vec<u8, A>, program: &Program<A>) -> Result<(), AllocError>
    ensures { OnOk result (out.new.items ≡ out.old.items ++ content program.now) }
{
    let layout = layout_of(program);
    out.extend_from_slice(program.text())?;
    write_zeros(out, (layout.data_distance - layout.text) as usize)?;
    out.extend_from_slice(program.bytes())
}
