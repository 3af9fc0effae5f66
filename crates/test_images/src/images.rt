//! Images for tests, from rows of tables.
use image::{ElfFault, Image, Rights, Segment};
use std::alloc::{AllocError, Allocator};

/// A segment as a row of a table.
#[derive(Clone, Copy)]
pub struct Part {
    /// Its first address.
    pub base: u32,
    /// How many addresses it has.
    pub size: u32,
    /// Its rights, as `p_flags` has them: 1 execute, 2 write, 4 read.
    pub flags: u32,
    /// Its first bytes.
    pub bytes: &'static [u8],
}

/// The segments of rows.
pub fn segments_of<A: Allocator + Copy>(
    alloc: A,
    parts: &[Part],
) -> Result<Vec<Segment<A>, A>, AllocError> {
    let mut segments = Vec::new(alloc);
    for part in parts {
        segments.push(Segment {
            base: part.base,
            size: part.size,
            rights: Rights::of_flags(part.flags),
            bytes: Vec::from_slice(alloc, part.bytes)?,
        })?;
    }
    Ok(segments)
}

/// The image of rows that is entered at an address, or the first check that refuses it.
pub fn checked_image<A: Allocator + Copy>(
    alloc: A,
    entry: u32,
    parts: &[Part],
) -> Result<Image<A>, ElfFault> {
    match segments_of(alloc, parts) {
        Ok(segments) => Image::new(alloc, entry, segments),
        Err(_) => Err(ElfFault::Memory),
    }
}

/// The image of rows that no check refuses, entered at an address; or `AllocError` where memory is
/// refused.
pub fn image_of<A: Allocator + Copy>(
    alloc: A,
    entry: u32,
    parts: &[Part],
) -> Result<Image<A>, AllocError> {
    checked_image(alloc, entry, parts).map_err(|_| AllocError)
}

/// The bytes of words.
pub fn bytes_of<A: Allocator>(alloc: A, words: &[u32]) -> Result<Vec<u8, A>, AllocError> {
    let mut bytes = Vec::new(alloc);
    for word in words {
        bytes.extend_from_slice(&word.to_le_bytes())?;
    }
    Ok(bytes)
}

/// The address at which programs of words are entered.
pub const PROGRAM_START: u32 = 0x0001_0000;

/// Each hart stores the low byte of its input at 0x00011006, and goes round for ever.
pub const STORES_INPUT: [u32; 3] = [
    0x0001_12b7, // lui t0, 0x11
    0x00b2_8323, // sb a1, 6(t0)
    0x0000_006f, // jal zero, 0
];

/// Each hart reserves a word, stores its address there if the reservation holds, loads it, and
/// exits with what the store-conditional answered.
pub const CONDITIONAL: [u32; 6] = [
    0x0001_1437, // lui s0, 0x11
    0x1004_22af, // lr.w t0, (s0)
    0x1884_252f, // sc.w a0, s0, (s0)
    0x0004_2583, // lw a1, 0(s0)
    0x05d0_0893, // addi a7, x0, 93
    0x0000_0073, // ecall
];

/// A program of words with all rights, at `PROGRAM_START`, in 8,192 bytes.
pub fn writable_program<A: Allocator + Copy>(
    alloc: A,
    words: &[u32],
) -> Result<Image<A>, AllocError> {
    let mut segments = Vec::new(alloc);
    segments.push(Segment {
        base: PROGRAM_START,
        size: 0x2000,
        rights: Rights::ANY,
        bytes: bytes_of(alloc, words)?,
    })?;
    Image::new(alloc, PROGRAM_START, segments).map_err(|_| AllocError)
}
