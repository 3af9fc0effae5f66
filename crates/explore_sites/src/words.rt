//! Words read and written.
ghost use Rattle.std.specs.Prelude.{◌≡◌, ◌≢◌, ◌<◌, ◌≤◌, ◌%◌, ℕ, IfSome, IfNone, OnOk, Some, length, slice_get};
ghost use Rattle.image.specs.Image.{ImageValue, span_of};
ghost use Rattle.image.specs.Spans.{has_address};
ghost use Rattle.mem_store.specs.Image.{image_memory, segments_memory};
ghost use Rattle.mem_store.specs.Memory.{Memory, to_load, grants, granted, number_at};
ghost use Rattle.bank_laws.specs.Banks.{WordBytes, with_word_bytes};
ghost use Rattle.bank_laws.specs.Words.{bytes_at};
ghost use Rattle.property_judge.specs.Property.{word_read};
ghost use Rattle.explore_sites.specs.Cells.{AreCanonical, image_words, values_over, words_shown};
ghost use Rattle.explore_sites.specs.declared.cell.Cell.{Cell as CellValue};

use crate::cell::Cell;
use crate::sameness::is_same_word;
use bank_step::bytes_at;
use image::{Image, Rights, Segment};
use std::alloc::{AllocError, Allocator};

// The first cell at an address.
fn find(cells: &[Cell], address: u32) -> Option<usize>
    ensures within { IfSome result (λ at. at < length cells.now) }
    ensures found { IfSome result (λ at. (cell : CellValue) → slice_get cells.now at ≡ Some cell → cell.address ≡ address) }
    ensures first { IfSome result (λ at. (k : ℕ) (cell : CellValue) → k < at → slice_get cells.now k ≡ Some cell
        → cell.address ≢ address) }
    ensures none { IfNone result ((k : ℕ) (cell : CellValue) → slice_get cells.now k ≡ Some cell
        → cell.address ≢ address) }
{
    'cells: for (at, cell) in cells.iter().enumerate() {
        if cell.address == address {
            return Some(at);
        }
    }
    None
}

// The image's own bytes of a word.
fn own_word<A: Allocator>(image: &Image<A>, address: u32) -> [u8; 4]
    ensures { result ≡ image_words image.now address }
{
    bytes_at(image.segments(), address)
}

/// The bytes of a word.
pub fn word_at<A: Allocator>(image: &Image<A>, cells: &[Cell], address: u32) -> [u8; 4]
    ensures { result ≡ words_shown image.now cells.now address }
{
    match find(cells, address) {
        Some(at) => cells[at].bytes,
        None => own_word(image, address),
    }
}

// Whether a segment has an address.
fn has_address<A: Allocator>(segment: &Segment<A>, address: u64) -> bool
    ensures { result ≡ has_address address (span_of segment.now) }
{
    u64::from(segment.base) <= address
        && address < u64::from(segment.base) + u64::from(segment.size)
}

// Whether a byte may be loaded.
#[tactic(auto, unfolding(mem_store::specs::Image::segments_memory))]
fn is_loadable<A: Allocator>(segments: &[Segment<A>], address: u64) -> bool
    ensures { result ≡ grants to_load ((segments_memory segments.now).rights address) }
{
    'segments: for segment in segments {
        if has_address(segment, address) {
            return segment.rights.grants(Rights::ANY);
        }
    }
    false
}

// Whether each of the four bytes from an address on may be loaded.
fn is_word_loadable<A: Allocator>(image: &Image<A>, address: u32) -> bool
    ensures { result ≡ granted to_load (image_memory image.now) 4 address }
{
    let segments = image.segments();
    let first = u64::from(address);
    is_loadable(segments, first)
        && is_loadable(segments, first + 1)
        && is_loadable(segments, first + 2)
        && is_loadable(segments, first + 3)
}

// The number that four bytes spell.
fn number_of(bytes: [u8; 4]) -> u32
    ensures { (values : ℕ → ℕ) (x : ℕ) → bytes ≡ bytes_at values x → result ≡ number_at values 4 x }
{
    u32::from_le_bytes(bytes)
}

/// The word that a load of an address reads, in a memory with the image's rights that shows these
/// words; 0 where the load faults.
pub fn word_read<A: Allocator>(image: &Image<A>, cells: &[Cell], address: u32) -> u32
    ensures { (m : Memory) → m.rights ≡ (image_memory image.now).rights
        → ((x : ℕ) → x % 4 ≡ 0 → words_shown image.now cells.now x ≡ bytes_at m.bytes x)
        → result ≡ word_read m address }
{
    if address % 4 != 0 {
        return 0;
    }
    if !is_word_loadable(image, address) {
        return 0;
    }
    number_of(word_at(image, cells, address))
}

// The first place whose cell's address isn't below an address, else the end.
fn place_of(cells: &[Cell], address: u32) -> usize
    ensures within { result ≤ length cells.now }
    ensures below { (k : ℕ) (cell : CellValue) → k < result → slice_get cells.now k ≡ Some cell
        → cell.address < address }
    ensures here { (cell : CellValue) → slice_get cells.now result ≡ Some cell → address ≤ cell.address }
{
    'cells: for (at, cell) in cells.iter().enumerate() {
        if address <= cell.address {
            return at;
        }
    }
    cells.len()
}

// Gives a word the bytes that it has without cells: removes each cell at its address.
fn remove_at<A: Allocator>(cells: &mut Vec<Cell, A>, address: u32)
    ensures words { (base : ℕ → WordBytes)
        → values_over base cells.new.items ≡ with_word_bytes (values_over base cells.old.items) address (base address) }
    ensures canonical { (image : ImageValue) → AreCanonical image cells.old.items → AreCanonical image cells.new.items }
{
    cells.retain(|cell| cell.address != address);
}

// Gives a word other bytes than the image's own, by a cell.
fn put_cell<A: Allocator>(
    cells: &mut Vec<Cell, A>,
    address: u32,
    bytes: [u8; 4],
) -> Result<(), AllocError>
    requires { address % 4 ≡ 0 }
    ensures words { OnOk result ((base : ℕ → WordBytes)
        → values_over base cells.new.items ≡ with_word_bytes (values_over base cells.old.items) address bytes) }
    ensures canonical { OnOk result ((image : ImageValue) → bytes ≢ image_words image address
        → AreCanonical image cells.old.items → AreCanonical image cells.new.items) }
{
    match find(cells, address) {
        Some(at) => {
            cells[at].bytes = bytes;
        }
        None => {
            let place = place_of(cells, address);
            cells.insert(place, Cell { address, bytes })?;
        }
    }
    Ok(())
}

/// Gives a word new bytes. Canonical cells stay so. Only want of memory refuses it.
pub fn put_word<A: Allocator>(
    image: &Image<A>,
    cells: &mut Vec<Cell, A>,
    address: u32,
    bytes: [u8; 4],
) -> Result<(), AllocError>
    requires { address % 4 ≡ 0 }
    ensures words { OnOk result (words_shown image.now cells.new.items
        ≡ with_word_bytes (words_shown image.now cells.old.items) address bytes) }
    ensures canonical { OnOk result (AreCanonical image.now cells.old.items → AreCanonical image.now cells.new.items) }
{
    if is_same_word(bytes, own_word(image, address)) {
        remove_at(cells, address);
    } else {
        put_cell(cells, address, bytes)?;
    }
    Ok(())
}
