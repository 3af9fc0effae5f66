//! The rights and the bytes of an image.
ghost use Rattle.std.specs.Prelude.{◌≡◌, ℕ, ◌+◌, ◌<◌, ◌≤◌, Some, IfSome, option_map};
ghost use Rattle.std.specs.Option.{is_some};
ghost use Rattle.image.specs.Image.{span_of};
ghost use Rattle.image.specs.Spans.{has_address};
ghost use Rattle.mem_store.specs.Memory.{around, grants, granted, number_at, to_execute};
ghost use Rattle.mem_store.specs.Image.{segments_memory, segment_at, byte_in, rights_in};
ghost use Rattle.bank_laws.specs.Table.{is_unwritable};
ghost use Rattle.bank_laws.specs.Words.{bytes_at};

use image::{Rights, Segment};
use std::alloc::Allocator;

/// The last address of an aligned word.
pub const LAST_WORD: u32 = 0xffff_fffc;

#[inline]
fn has_address<A: Allocator>(segment: &Segment<A>, address: u64) -> bool
    ensures { result ≡ has_address address (span_of segment.now) }
{
    u64::from(segment.base) <= address
        && address < u64::from(segment.base) + u64::from(segment.size)
}

fn segment_at<A: Allocator>(segments: &[Segment<A>], address: u64) -> Option<&Segment<A>>
    ensures { option_map (λ s. s.now) result ≡ segment_at segments.now address }
{
    'segments: for segment in segments {
        if has_address(segment, address) {
            return Some(segment);
        }
    }
    None
}

// The segment that has all of the bytes from an address on, if no segment before it has any of
// them. On `None` the caller falls back to single bytes; the result is the same.
#[inline]
fn segment_of<A: Allocator>(
    segments: &[Segment<A>],
    address: u32,
    count: u32,
) -> Option<&Segment<A>>
    ensures all { IfSome result (λ s. (k : ℕ) → k < count → segment_at segments.now (address + k) ≡ Some s.now) }
    ensures first { IfSome result (λ s. s.now.base ≤ address) }
{
    let first = u64::from(address);
    let end = first + u64::from(count);
    'segments: for segment in segments {
        let base = u64::from(segment.base);
        let past = base + u64::from(segment.size);
        if base <= first && end <= past {
            return Some(segment);
        }
        if base < end && first < past {
            return None;
        }
    }
    None
}

/// The byte at an address, 0 if unmapped.
#[tactic(auto, unfolding(mem_store::specs::Image::segments_memory))]
pub fn byte_at<A: Allocator>(segments: &[Segment<A>], address: u64) -> u8
    ensures { result ≡ (segments_memory segments.now).bytes address }
{
    let Some(segment) = segment_at(segments, address) else {
        return 0;
    };
    let offset = address.saturating_sub(u64::from(segment.base)) as usize;
    if offset < segment.bytes.len() {
        return segment.bytes[offset];
    }
    0
}

// Whether the byte at an address has one of the wanted rights.
#[tactic(auto, unfolding(mem_store::specs::Image::segments_memory))]
fn grants<A: Allocator>(segments: &[Segment<A>], wanted: Rights, address: u64) -> bool
    ensures { result ≡ grants wanted.0 ((segments_memory segments.now).rights address) }
{
    match segment_at(segments, address) {
        Some(segment) => segment.rights.grants(wanted),
        None => false,
    }
}

/// Whether the byte at an address is mapped.
#[tactic(auto, unfolding(mem_store::specs::Image::segments_memory))]
pub fn is_mapped<A: Allocator>(segments: &[Segment<A>], address: u64) -> bool
    ensures { result ≡ is_some ((segments_memory segments.now).rights address) }
{
    segment_at(segments, address).is_some()
}

/// The four bytes from an address on. An unmapped byte is 0.
pub fn bytes_at<A: Allocator>(segments: &[Segment<A>], address: u32) -> [u8; 4]
    ensures { result ≡ bytes_at (segments_memory segments.now).bytes address }
{
    if let Some(bytes) = bytes_in_one(segments, address) {
        return bytes;
    }
    let first = u64::from(address);
    [
        byte_at(segments, first),
        byte_at(segments, first + 1),
        byte_at(segments, first + 2),
        byte_at(segments, first + 3),
    ]
}

// The four bytes from an address on, if one segment's file bytes have them all.
#[inline]
fn bytes_in_one<A: Allocator>(segments: &[Segment<A>], address: u32) -> Option<[u8; 4]>
    ensures { IfSome result (λ bytes. bytes ≡ bytes_at (segments_memory segments.now).bytes address) }
{
    let segment = segment_of(segments, address, 4)?;
    let offset = address.saturating_sub(segment.base) as usize;
    let bytes = &segment.bytes[..];
    if offset + 4 > bytes.len() {
        return None;
    }
    Some([
        bytes[offset],
        bytes[offset + 1],
        bytes[offset + 2],
        bytes[offset + 3],
    ])
}

/// Whether each of the bytes from an address on has one of the wanted rights.
pub fn granted<A: Allocator>(
    segments: &[Segment<A>],
    wanted: Rights,
    count: u32,
    address: u32,
) -> bool
    ensures { result ≡ granted wanted.0 (segments_memory segments.now) count address }
{
    if let Some(segment) = segment_of(segments, address, count) {
        return count == 0 || segment.rights.grants(wanted);
    }
    'bytes: for k in 0..count {
        if !grants(segments, wanted, u64::from(address) + u64::from(k)) {
            return false;
        }
    }
    true
}

/// The number in the four bytes from an address on, little-endian; their addresses are modulo 2^32.
/// An unmapped byte is 0.
pub fn number_at<A: Allocator>(segments: &[Segment<A>], address: u32) -> u32
    ensures { result ≡ number_at (around (segments_memory segments.now)).bytes 4 address }
{
    if address <= LAST_WORD {
        return u32::from_le_bytes(bytes_at(segments, address));
    }
    u32::from_le_bytes([
        byte_at(segments, u64::from(address)),
        byte_at(segments, u64::from(address.wrapping_add(1))),
        byte_at(segments, u64::from(address.wrapping_add(2))),
        byte_at(segments, u64::from(address.wrapping_add(3))),
    ])
}

// Whether each of the four bytes from an address on, modulo 2^32, has one of the wanted rights.
fn each_grants<A: Allocator>(segments: &[Segment<A>], wanted: Rights, address: u32) -> bool
    ensures { result ≡ granted wanted.0 (around (segments_memory segments.now)) 4 address }
{
    grants(segments, wanted, u64::from(address))
        && grants(segments, wanted, u64::from(address.wrapping_add(1)))
        && grants(segments, wanted, u64::from(address.wrapping_add(2)))
        && grants(segments, wanted, u64::from(address.wrapping_add(3)))
}

/// Whether each of the four bytes from an address on is executable; their addresses are modulo
/// 2^32.
pub fn is_executable<A: Allocator>(segments: &[Segment<A>], address: u32) -> bool
    ensures { result ≡ granted to_execute (around (segments_memory segments.now)) 4 address }
{
    if address <= LAST_WORD {
        return granted(segments, Rights::EXECUTE, 4, address);
    }
    each_grants(segments, Rights::EXECUTE, address)
}

/// Whether none of the four bytes from an address on is writable; their addresses are modulo 2^32.
pub fn is_unwritable<A: Allocator>(segments: &[Segment<A>], address: u32) -> bool
    ensures { result ≡ is_unwritable (segments_memory segments.now) address }
{
    if address <= LAST_WORD {
        if let Some(segment) = segment_of(segments, address, 4) {
            return !segment.rights.grants(Rights::WRITE);
        }
    }
    !grants(segments, Rights::WRITE, u64::from(address))
        && !grants(segments, Rights::WRITE, u64::from(address.wrapping_add(1)))
        && !grants(segments, Rights::WRITE, u64::from(address.wrapping_add(2)))
        && !grants(segments, Rights::WRITE, u64::from(address.wrapping_add(3)))
}
