//! Programs and plans for tests of harts on threads, and what their harts exit with.
use crate::{PROGRAM_START, bytes_of, writable_program};
use hart_step::{Hart, HartState};
use image::{Image, Rights, Segment};
use object_library::{Kind, make_image};
use std::alloc::{AllocError, Allocator};
use std::collections::BTreeSet;
use thread_gate::Plan;

/// A program for tests.
#[derive(Clone, Copy)]
pub enum Program {
    /// An object of the library: its text may not be written.
    Object(Kind),
    /// Words that may be written too, at `PROGRAM_START`.
    Writable(&'static [u32]),
    /// Words that may not be written, at `PROGRAM_START`, and 64 bytes to read and write, at 0.
    Fixed(&'static [u32]),
}

/// Each hart stores `addi a0, zero, 5` over its fifth instruction, and then executes it.
pub const STORE_OVER_NEXT: Program = Program::Writable(&[
    0x0000_0297, // auipc t0, 0x0
    0x0050_0337, // lui t1, 0x500
    0x5133_0313, // addi t1, t1, 1299
    0x0062_a823, // sw t1, 16(t0)
    0x0010_0513, // addi a0, zero, 1
    0x05d0_0893, // addi a7, zero, 93
    0x0000_0073, // ecall
]);

/// The image of a program.
pub fn program_image<A: Allocator + Copy>(
    alloc: A,
    program: Program,
) -> Result<Image<A>, AllocError> {
    match program {
        Program::Object(kind) => make_image(alloc, kind),
        Program::Writable(words) => writable_program(alloc, words),
        Program::Fixed(words) => fixed_program(alloc, words),
    }
}

// The image of words that may not be written.
fn fixed_program<A: Allocator + Copy>(alloc: A, words: &[u32]) -> Result<Image<A>, AllocError> {
    let mut segments = Vec::new(alloc);
    segments.push(Segment {
        base: PROGRAM_START,
        size: 0x2000,
        rights: Rights::of_flags(5),
        bytes: bytes_of(alloc, words)?,
    })?;
    segments.push(Segment {
        base: 0,
        size: 64,
        rights: Rights::of_flags(6),
        bytes: Vec::new(alloc),
    })?;
    Image::new(alloc, PROGRAM_START, segments).map_err(|_| AllocError)
}

/// The plan that refuses these pairs of a hart and the number of its step.
pub fn plan_of<A: Allocator + Copy>(alloc: A, pairs: &[(u32, u32)]) -> Result<Plan<A>, AllocError> {
    let mut plan = BTreeSet::new(alloc);
    for pair in pairs {
        let Ok(_) = plan.insert(*pair) else {
            return Err(AllocError);
        };
    }
    Ok(plan)
}

/// The exit status of all harts, if it is the same.
pub fn one_value(harts: &[Hart]) -> Option<u32> {
    let mut value = None;
    for hart in harts {
        let HartState::Exited(status) = hart.state else {
            return None;
        };
        if value.is_some() && value != Some(status) {
            return None;
        }
        value = Some(status);
    }
    value
}

/// Pairs that follow from a number, of harts below a bound, which may not be there, and of low
/// numbers.
pub fn pairs_of(number: u32, bound: u32) -> [(u32, u32); 4] {
    let mut pairs = [(0, 0); 4];
    let mut drawn = number;
    for pair in &mut pairs {
        drawn = drawn.wrapping_mul(1_664_525).wrapping_add(1_013_904_223);
        let hart = (drawn >> 26).checked_rem(bound).unwrap_or(0);
        *pair = (hart, (drawn >> 20) % 32);
    }
    pairs
}
