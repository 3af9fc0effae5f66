//! The lines of bytes.

ghost use Rattle.std.specs.Prelude.{◌≡◌, ◌≤◌, ◌<◌, ◌^◌, ◌+◌, ◌%◌, ◌*◌, ◌/◌, ◌++◌, [], OnOk, length, drop, slice_index, string_bytes};
ghost use Rattle.isa_disasm.specs.Listing.{byte_lines, listing, lines_from, word_entry, word_of_bytes};

use crate::buffer::LineBuffer;
use crate::line::push_line;
use isa_names::{Byte, Word};
use std::alloc::{AllocError, Allocator};

// The little-endian word of the four bytes at a place.
fn word_at(bytes: &[u8], place: usize) -> u32
    requires { place + 3 < length bytes.now }
    ensures { result ≡ word_of_bytes (slice_index bytes.now place) (slice_index bytes.now (place + 1))
        (slice_index bytes.now (place + 2)) (slice_index bytes.now (place + 3)) }
{
    u32::from_le_bytes([
        bytes[place],
        bytes[place + 1],
        bytes[place + 2],
        bytes[place + 3],
    ])
}

// Appends a line for each whole word of the bytes. The base is aligned.
#[tactic(auto, using(crate::proofs::ListingLemmas::next_word))]
fn push_words<A: Allocator>(text: &mut String<A>, base: u64, bytes: &[u8]) -> Result<(), AllocError>
    requires room { base + length bytes.now ≤ 2 ^ 32 }
    ensures { OnOk result (string_bytes text.new
        ++ listing (base + 4 * (length bytes.now / 4)) (drop (4 * (length bytes.now / 4)) bytes.now)
        ≡ string_bytes text.old ++ listing base bytes.now) }
{
    let mut line = LineBuffer::new();
    'words: for index in 0..bytes.len() / 4 {
        let place = 4 * index;
        let address = (base + place as u64) as u32;
        write_entry(&mut line, address, word_at(bytes, place));
        text.push_str(line.as_str())?;
    }
    Ok(())
}

// Makes the line that of a word, with its address and its digits after it, and a line end.
#[inline(always)]
fn write_entry(line: &mut LineBuffer, address: u32, word: u32)
    ensures { line.new ≡ word_entry address word [] }
{
    line.clear();
    push_line(line, address, word);
    line.push("  # ");
    line.push_word(address);
    line.push(" ");
    line.push_word(word);
    line.push("\n");
}

// Appends a line for each byte; none of them is in an aligned word.
#[tactic(auto, unfolding(crate::specs::Listing::byte_lines))]
fn push_bytes<A: Allocator>(text: &mut String<A>, base: u64, bytes: &[u8]) -> Result<(), AllocError>
    requires room { base + length bytes.now ≤ 2 ^ 32 }
    ensures { OnOk result (string_bytes text.new
        ≡ string_bytes text.old ++ byte_lines base bytes.now []) }
{
    'bytes: for (index, byte) in bytes.iter().enumerate() {
        let (address, byte) = (Word((base + index as u64) as u32), Byte(*byte));
        writeln!(text, ".byte 0x{byte}  # {address}")?;
    }
    Ok(())
}

/// Appends the lines of bytes at an aligned address: one for each word, then one for each byte
/// after the last whole word. Fails when out of memory.
#[tactic(auto, using(crate::proofs::ListingLemmas::tail_is_bytes))]
pub fn push_listing<A: Allocator>(
    text: &mut String<A>,
    base: u64,
    bytes: &[u8],
) -> Result<(), AllocError>
    requires room { base + length bytes.now ≤ 2 ^ 32 }
    ensures { OnOk result (string_bytes text.new
        ≡ string_bytes text.old ++ listing base bytes.now) }
{
    push_words(text, base, bytes)?;
    let whole = 4 * (bytes.len() / 4);
    let (_, tail) = bytes.split_at(whole);
    push_bytes(text, base + whole as u64, tail)
}

/// Appends the lines of bytes at any address. Fails when out of memory.
#[tactic(auto, using(crate::proofs::ListingLemmas::parts_join), unfolding(crate::specs::Listing::lines_from))]
pub fn push_lines<A: Allocator>(
    text: &mut String<A>,
    base: u32,
    bytes: &[u8],
) -> Result<(), AllocError>
    requires room { base + length bytes.now ≤ 2 ^ 32 }
    ensures { OnOk result (string_bytes text.new
        ≡ string_bytes text.old ++ lines_from base bytes.now) }
{
    let before = (4 - base % 4) % 4;
    let place = (before as usize).min(bytes.len());
    let (head, rest) = bytes.split_at(place);
    push_bytes(text, u64::from(base), head)?;
    push_listing(text, u64::from(base) + u64::from(before), rest)
}
