//! Recognition of an object's image.
ghost use Rattle.std.specs.Prelude.{◌≡◌, ◌≢◌, ℕ, ◌+◌, ◌*◌, ◌^◌, ◌≤◌, length, slice_index, true, false};
ghost use Rattle.image.specs.Image.{IsSound};
ghost use Rattle.object_library.specs.Images.{cell, image_of, IsSame};
ghost use Rattle.object_library.specs.Cells.{known, AgreeOn, AgreeWhereCovered, Differ, Matches, EndInRange};

use crate::entry::{words, zeros};
use crate::kind::Kind;
use bitflags::Flags;
use image::{Image, Rights, Segment};
use std::alloc::Allocator;

/// Whether an image is an object's: the same entry, and at each address the same byte with the same
/// rights, whatever its segments are.
pub fn certify<A: Allocator>(kind: Kind, image: &Image<A>) -> bool
    ensures same { result ≡ true → IsSame image.now (image_of kind) }
    ensures other { result ≡ false → IsSame image.now (image_of kind) → ⊥ }
{
    matches_object(image, words(kind), zeros(kind))
}

// Whether an image has the entry and the bytes of an object with these words and this many zeros.
#[tactic(auto, using(crate::proofs::CellLemmas::everywhere, crate::proofs::CellLemmas::in_range_if_sound))]
fn matches_object<A: Allocator>(image: &Image<A>, words: &[u32], zeros: u32) -> bool
    requires short { length words.now ≤ 1024 }
    requires few { zeros ≤ 4096 }
    ensures yes { result ≡ true → Matches image.now words.now zeros }
    ensures no { result ≡ false → Matches image.now words.now zeros → ⊥ }
{
    let segments = image.segments();
    if image.entry() != 0x0001_0000 {
        return false;
    }
    if !agrees_on(segments, words, zeros, 0x0001_0000, 4 * words.len() as u32) {
        return false;
    }
    if !agrees_on(segments, words, zeros, 0x0001_1000, zeros) {
        return false;
    }
    agrees_everywhere(segments, words, zeros)
}

// Whether segments and an object agree at each address of the segments.
fn agrees_everywhere<A: Allocator>(segments: &[Segment<A>], words: &[u32], zeros: u32) -> bool
    requires short { length words.now ≤ 1024 }
    requires few { zeros ≤ 4096 }
    requires fits { EndInRange segments.now }
    ensures yes { result ≡ true
        → AgreeWhereCovered (cell segments.now) (known words.now zeros) segments.now }
    ensures no { result ≡ false → Differ (cell segments.now) (known words.now zeros) }
{
    'segments: for segment in segments {
        if !agrees_on(segments, words, zeros, segment.base, segment.size) {
            return false;
        }
    }
    true
}

// Whether segments and an object agree at `size` addresses from `base` on.
fn agrees_on<A: Allocator>(
    segments: &[Segment<A>],
    words: &[u32],
    zeros: u32,
    base: u32,
    size: u32,
) -> bool
    requires short { length words.now ≤ 1024 }
    requires few { zeros ≤ 4096 }
    requires fits { base + size ≤ 2 ^ 32 }
    ensures yes { result ≡ true → AgreeOn (cell segments.now) (known words.now zeros) base size }
    ensures no { result ≡ false → Differ (cell segments.now) (known words.now zeros) }
{
    'offsets: for offset in 0..size {
        let address = base + offset;
        if !is_same_cell(
            cell_at(segments, address),
            known_cell(words, zeros, address),
        ) {
            return false;
        }
    }
    true
}

// Whether two cells are equal.
fn is_same_cell(a: Option<(u8, u8)>, b: Option<(u8, u8)>) -> bool
    ensures yes { result ≡ true → a ≡ b }
    ensures no { result ≡ false → a ≢ b }
{
    match (a, b) {
        (Some((x, r)), Some((y, s))) => x == y && r == s,
        (None, None) => true,
        _ => false,
    }
}

// The byte at an address and its rights, if it is in a segment.
fn cell_at<A: Allocator>(segments: &[Segment<A>], address: u32) -> Option<(u8, u8)>
    ensures { result ≡ cell segments.now address }
{
    'segments: for segment in segments {
        if segment.base <= address && address - segment.base < segment.size {
            return Some((
                byte_at(segment, address - segment.base),
                bits_of(segment.rights),
            ));
        }
    }
    None
}

// The byte at an offset of a segment.
fn byte_at<A: Allocator>(segment: &Segment<A>, offset: u32) -> u8
    ensures { result ≡ slice_index segment.now.bytes offset }
{
    let offset = offset as usize;
    if offset < segment.bytes.len() {
        segment.bytes[offset]
    } else {
        0
    }
}

// Rights as a number.
fn bits_of(rights: Rights) -> u8
    ensures { result ≡ rights.0 }
{
    rights.bits()
}

// The byte of an object at an address, and its rights, if any.
fn known_cell(words: &[u32], zeros: u32, address: u32) -> Option<(u8, u8)>
    requires short { length words.now ≤ 1024 }
    requires few { zeros ≤ 4096 }
    ensures { result ≡ known words.now zeros address }
{
    let text = 4 * words.len() as u32;
    if 0x0001_0000 <= address && address - 0x0001_0000 < text {
        let word = words[(address - 0x0001_0000) as usize / 4];
        let bytes = word.to_le_bytes();
        Some((bytes[(address % 4) as usize], 5))
    } else if 0x0001_1000 <= address && address - 0x0001_1000 < zeros {
        Some((0, 6))
    } else {
        None
    }
}
