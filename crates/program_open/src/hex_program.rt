//! The image of a program of words.

ghost use Rattle.std.specs.Prelude.{◌≡◌, ◌≤◌, length, IfOk};
ghost use Rattle.program_open.specs.HexImage.{hex_bytes, hex_image_of, word_bytes};
ghost use Rattle.program_open.specs.HexText.{most_words};

use image::{Image, Rights, Segment};
use std::alloc::{AllocError, Allocator};

/// The address of the first word, which is also the entry.
pub const HEX_BASE: u32 = 0x0001_0000;

/// The size of the segment in bytes, for any number of words.
pub const HEX_SIZE: u32 = 8192;

// Execute, write and read.
const ALL_RIGHTS: u32 = 7;

/// The image of at most `MOST_WORDS` words: one segment of `HEX_SIZE` bytes at `HEX_BASE` that is
/// executable, writable and readable, and begins with the words, each little-endian. The entry is
/// the first word.
pub fn hex_image<A: Allocator + Copy>(alloc: A, words: &[u32]) -> Result<Image<A>, AllocError>
    requires { length words.now ≤ most_words }
    ensures { IfOk result (λ image. image ≡ hex_image_of words.now) }
{
    let mut segments = Vec::new(alloc);
    segments.push(Segment {
        base: HEX_BASE,
        size: HEX_SIZE,
        rights: Rights::of_flags(ALL_RIGHTS),
        bytes: bytes(alloc, words)?,
    })?;
    // An image of this shape passes all checks; only memory can fail.
    match Image::new(alloc, HEX_BASE, segments) {
        Ok(image) => Ok(image),
        Err(_) => Err(AllocError),
    }
}

// The bytes of words, each little-endian.
fn bytes<A: Allocator + Copy>(alloc: A, words: &[u32]) -> Result<Vec<u8, A>, AllocError>
    ensures { IfOk result (λ bytes. bytes.items ≡ hex_bytes words.now) }
{
    let mut bytes = Vec::new(alloc);
    for word in words {
        bytes.extend_from_slice(&word.to_le_bytes())?;
    }
    Ok(bytes)
}
