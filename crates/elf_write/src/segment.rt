//! The header of a file and its program headers.
ghost use Rattle.std.specs.Prelude.{◌≡◌, ◌++◌, OnOk};
ghost use Rattle.elf_write.specs.Field.{bytes_of_all};
ghost use Rattle.elf_write.specs.Layout.{header_count};
ghost use Rattle.elf_write.specs.Segment.{load_fields, text_header, data_header, file_header, front_segment};

use crate::field::{Field, write_fields, write_zeros};
use crate::layout::{PAGE, header_count, layout_of};
use asm_assemble::{Program, TEXT_BASE};
use elf_read::elf::{
    ELFCLASS32, ELFDATA2LSB, EM_RISCV, ET_EXEC, EV_CURRENT, HEADER_SIZE, MAGIC,
    PROGRAM_HEADER_SIZE, PT_LOAD, SECTION_HEADER_SIZE,
};
use std::alloc::{AllocError, Allocator};

/// Appends the file up to the text, given the offset of the section headers modulo 2^32. Fails when
/// out of memory.
#[tactic(auto, using(crate::proofs::LayoutLemmas::few_headers))]
pub fn write_front<A: Allocator>(
    out: &mut Vec<u8, A>,
    program: &Program<A>,
    sections: u32,
) -> Result<(), AllocError>
    ensures { OnOk result (out.new.items ≡ out.old.items ++ front_segment program.now sections) }
{
    let count = header_count(program);
    write_header(out, program, count, sections)?;
    write_text_header(out, program)?;
    write_data_header(out, program)?;
    write_zeros(out, 4044 - 32 * count as usize)
}

// Appends the file's header.
#[tactic(auto, unfolding(crate::specs::Segment::file_header))]
fn write_header<A: Allocator>(
    out: &mut Vec<u8, A>,
    program: &Program<A>,
    count: u16,
    sections: u32,
) -> Result<(), AllocError>
    requires { header_count program.now ≡ count }
    ensures { OnOk result (out.new.items ≡ out.old.items ++ file_header program.now sections) }
{
    let place = if count == 0 { 0 } else { HEADER_SIZE as u32 };
    write_fields(
        out,
        &[
            Field::Word(MAGIC),
            Field::Byte(ELFCLASS32),
            Field::Byte(ELFDATA2LSB),
            Field::Byte(EV_CURRENT),
            Field::Byte(0),
            Field::Word(0),
            Field::Word(0),
            Field::Half(ET_EXEC),
            Field::Half(EM_RISCV),
            Field::Word(EV_CURRENT as u32),
            Field::Word(program.entry()),
            Field::Word(place),
            Field::Word(sections),
            Field::Word(0),
            Field::Half(HEADER_SIZE),
            Field::Half(PROGRAM_HEADER_SIZE),
            Field::Half(count),
            Field::Half(SECTION_HEADER_SIZE),
            Field::Half(7),
            Field::Half(6),
        ],
    )
}

// Appends the program header of the text, if there is any.
#[tactic(auto, unfolding(crate::specs::Segment::text_header))]
fn write_text_header<A: Allocator>(
    out: &mut Vec<u8, A>,
    program: &Program<A>,
) -> Result<(), AllocError>
    ensures { OnOk result (out.new.items ≡ out.old.items ++ text_header program.now) }
{
    let layout = layout_of(program);
    if layout.text == 0 {
        return Ok(());
    }
    write_load(out, PAGE, TEXT_BASE, layout.text, layout.text, 5)
}

// Appends the program header of data and zeros, if there are any.
#[tactic(auto, unfolding(crate::specs::Segment::data_header))]
fn write_data_header<A: Allocator>(
    out: &mut Vec<u8, A>,
    program: &Program<A>,
) -> Result<(), AllocError>
    ensures { OnOk result (out.new.items ≡ out.old.items ++ data_header program.now) }
{
    let layout = layout_of(program);
    if layout.data_size == 0 {
        return Ok(());
    }
    let distance = layout.data_distance;
    write_load(
        out,
        PAGE + distance,
        TEXT_BASE + distance,
        layout.bytes,
        layout.data_size,
        6,
    )
}

// Appends the program header of a loadable segment.
#[tactic(auto, unfolding(crate::specs::Segment::load_fields))]
fn write_load<A: Allocator>(
    out: &mut Vec<u8, A>,
    offset: u32,
    address: u32,
    file_size: u32,
    memory_size: u32,
    flags: u32,
) -> Result<(), AllocError>
    ensures { OnOk result (out.new.items ≡ out.old.items
        ++ bytes_of_all (load_fields offset address file_size memory_size flags)) }
{
    write_fields(
        out,
        &[
            Field::Word(PT_LOAD),
            Field::Word(offset),
            Field::Word(address),
            Field::Word(address),
            Field::Word(file_size),
            Field::Word(memory_size),
            Field::Word(flags),
            Field::Word(PAGE),
        ],
    )
}
