//! Programs for tests, and their books.
use machine::Inputs;
use object_library::Kind;
use std::alloc::Allocator;
use test_images::{Program, program_image};
use thread_book::Book;

/// Consensus of two harts by `amoswap.w`.
pub const SWAP: Program = Program::Object(Kind::Swap);

/// Consensus of all harts by `lr.w` and `sc.w`.
pub const LR_SC: Program = Program::Object(Kind::LrSc);

/// Each hart stores its input at one address, loads the word that is there, and exits with it.
pub const STORE_AND_LOAD: [u32; 5] = [
    0x0001_12b7, // lui t0, 0x11
    0x00b2_a023, // sw a1, 0(t0)
    0x0002_a503, // lw a0, 0(t0)
    0x05d0_0893, // addi a7, zero, 93
    0x0000_0073, // ecall
];

/// The book of a program with a hart for each input.
pub fn book_of<A: Allocator + Copy>(alloc: A, program: Program, inputs: &[u32]) -> Option<Book<A>> {
    let image = program_image(alloc, program).ok()?;
    let inputs = Inputs::new(inputs).ok()?;
    Book::new(alloc, image, inputs).ok()
}
