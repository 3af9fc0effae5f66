//! The layout of a written file.
ghost use Rattle.std.specs.Prelude.{◌≡◌, ◌+◌, ◌≤◌, ◌^◌, length};
ghost use Rattle.asm_assemble.specs.Program.{round_up};
ghost use Rattle.elf_write.specs.Layout.{data_distance, data_size, header_count};

use asm_assemble::Program;
use std::alloc::Allocator;

/// The size of a page, and the offset of the text in a written file, in bytes.
pub const PAGE: u32 = 4096;

/// The sizes of a program's parts in bytes, and the distance from its text's first byte to its
/// data.
#[derive(Clone, Copy, PartialEq, Eq)]
pub struct Layout {
    pub text: u32,
    pub data_distance: u32,
    pub bytes: u32,
    pub data_size: u32,
}

/// The layout of a program.
#[tactic(auto, using(crate::proofs::LayoutLemmas::bounds), unfolding(crate::specs::Layout::data_distance, crate::specs::Layout::data_size, asm_assemble::specs::Program::segment_size))]
pub fn layout_of<A: Allocator>(program: &Program<A>) -> Layout
    ensures near { result.data_distance ≤ 2 ^ 25 }
    ensures small { result.bytes ≤ 2 ^ 24 }
    ensures behind { result.text ≤ result.data_distance }
    ensures within { result.data_size ≤ 2 ^ 24 }
    ensures text { result.text ≡ length program.now.text }
    ensures distance { result.data_distance ≡ data_distance program.now }
    ensures bytes { result.bytes ≡ length program.now.bytes }
    ensures size { result.data_size ≡ data_size program.now }
{
    let text = program.text().len() as u32;
    let bytes = program.bytes().len() as u32;
    let zeros = program.zeros();
    let data_size = if zeros == 0 {
        bytes
    } else {
        word_up(bytes) + zeros
    };
    Layout {
        text,
        data_distance: page_up(text),
        bytes,
        data_size,
    }
}

/// The number of program headers of a program's file.
#[tactic(auto, unfolding(crate::specs::Layout::header_count))]
pub fn header_count<A: Allocator>(program: &Program<A>) -> u16
    ensures { result ≡ header_count program.now }
{
    let layout = layout_of(program);
    let texts: u16 = if layout.text == 0 { 0 } else { 1 };
    let datas: u16 = if layout.data_size == 0 { 0 } else { 1 };
    texts + datas
}

// The least multiple of 4096 that is at least a number.
#[tactic(auto, unfolding(asm_assemble::specs::Program::round_up))]
fn page_up(number: u32) -> u32
    requires { number ≤ 2 ^ 25 }
    ensures { result ≡ round_up number 4096 }
{
    (number + 4095) / 4096 * 4096
}

/// The least multiple of 4 that is at least a number.
#[tactic(auto, unfolding(asm_assemble::specs::Program::round_up))]
pub fn word_up(number: u32) -> u32
    requires { number ≤ 2 ^ 26 }
    ensures value { result ≡ round_up number 4 }
    ensures above { number ≤ result }
    ensures near { result ≤ number + 3 }
{
    (number + 3) / 4 * 4
}
