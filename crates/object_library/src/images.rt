//! The images of the objects.
ghost use Rattle.std.specs.Prelude.{◌≡◌, ◌≤◌, length, IfOk};
ghost use Rattle.object_library.specs.Images.{bytes_of, image_of, object_image};

use crate::entry::{words, zeros};
use crate::kind::Kind;
use image::{Image, Rights, Segment};
use std::alloc::{AllocError, Allocator};

// The bytes of words, little-endian.
#[tactic(auto, using(crate::proofs::ImageLemmas::bytes_more))]
fn bytes<A: Allocator>(alloc: A, words: &[u32]) -> Result<Vec<u8, A>, AllocError>
    requires { length words.now ≤ 1024 }
    ensures { IfOk result (λ bytes. bytes.items ≡ bytes_of words.now) }
{
    let mut bytes = Vec::with_capacity(alloc, 4 * words.len())?;
    'words: for word in words {
        bytes.extend_from_slice(&word.to_le_bytes())?;
    }
    Ok(bytes)
}

// The segments of an object with these words and this many zeros.
fn segments<A: Allocator + Copy>(
    alloc: A,
    words: &[u32],
    zeros: u32,
) -> Result<Vec<Segment<A>, A>, AllocError>
    requires { length words.now ≤ 1024 }
    ensures { IfOk result (λ segments. segments.items ≡ (object_image words.now zeros).segments) }
{
    let mut segments = Vec::with_capacity(alloc, 2)?;
    segments.push(Segment {
        base: 0x0001_0000,
        size: 4 * words.len() as u32,
        rights: Rights::of_flags(5),
        bytes: bytes(alloc, words)?,
    })?;
    segments.push(Segment {
        base: 0x0001_1000,
        size: zeros,
        rights: Rights::of_flags(6),
        bytes: Vec::new(alloc),
    })?;
    Ok(segments)
}

/// The image of an object: its text at 0x00010000, readable and executable, and its data at
/// 0x00011000, readable and writable. Fails when out of memory.
#[tactic(auto, using(crate::proofs::ImageLemmas::image_made))]
pub fn make_image<A: Allocator + Copy>(alloc: A, kind: Kind) -> Result<Image<A>, AllocError>
    ensures { IfOk result (λ image. image ≡ image_of kind) }
{
    let segments = segments(alloc, words(kind), zeros(kind))?;
    match Image::new(alloc, 0x0001_0000, segments) {
        Ok(image) => Ok(image),
        // The segments are sound, so the fault is out of memory.
        Err(_) => Err(AllocError),
    }
}
