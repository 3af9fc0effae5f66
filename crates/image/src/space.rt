//! The checks of the places of segments.
ghost use Rattle.std.specs.Prelude.{◌≡◌, ◌↔◌, List, IsTrue, nat_lt, sum_by, filter, IfOk};
ghost use Rattle.std.specs.List.{list_any};
ghost use Rattle.image.specs.Spans.{Shares, any_overlap, space_fault, stands_in_row, is_filled, is_over_mem, is_past_end};
ghost use Rattle.image.specs.declared.span.Span.{Span};
ghost use Rattle.image.specs.Spans.{image_limit};

use crate::fault::ElfFault;
use crate::span::Span;
use std::alloc::{AllocError, Allocator};

/// The limit of an image: the largest sum of its segments' sizes, in bytes.
pub const IMAGE_LIMIT: u32 = 0x0100_0000;

// The number of addresses.
const ADDRESSES: u64 = 0x1_0000_0000;

/// The check of pairs finds an overlap exactly if two segments share an address.
pub fn overlap_is_a_shared_address()
    ensures { (spans : List Span) → IsTrue (any_overlap spans) ↔ Shares spans }
{}

/// The first check of the segments' places that fails. `Err` when out of memory.
#[tactic(auto, unfolding(crate::specs::Spans::space_fault))]
pub fn check_space<A: Allocator>(alloc: A, spans: &[Span]) -> Result<Option<ElfFault>, AllocError>
    ensures { IfOk result (λ fault. fault ≡ space_fault spans.now) }
{
    if any_over_mem(spans) {
        return Ok(Some(ElfFault::FileOverMem));
    }
    if any_past_end(spans) {
        return Ok(Some(ElfFault::PastEnd));
    }
    if any_overlap(alloc, spans)? {
        return Ok(Some(ElfFault::Overlap));
    }
    if is_too_large(spans) {
        return Ok(Some(ElfFault::TooLarge));
    }
    Ok(None)
}

// Whether a segment has more file bytes than its size.
fn any_over_mem(spans: &[Span]) -> bool
    ensures { result ≡ list_any is_over_mem spans.now }
{
    spans.iter().any(|s| s.file_size > s.size as usize)
}

// Whether a segment ends past the last address.
fn any_past_end(spans: &[Span]) -> bool
    ensures { result ≡ list_any is_past_end spans.now }
{
    spans
        .iter()
        .any(|s| s.base as u64 + s.size as u64 > ADDRESSES)
}

// Whether two segments share an address: in order of base, one begins before the previous one ends.
#[tactic(auto, using(crate::proofs::Overlap::row_decides))]
fn any_overlap<A: Allocator>(alloc: A, spans: &[Span]) -> Result<bool, AllocError>
    ensures { IfOk result (λ found. found ≡ any_overlap spans.now) }
{
    let mut row = filled_spans(alloc, spans)?;
    row.sort_by_key(|s| s.base)?;
    Ok(!stands_in_row(&row))
}

// The segments that are not empty.
fn filled_spans<A: Allocator>(alloc: A, spans: &[Span]) -> Result<Vec<Span, A>, AllocError>
    ensures { IfOk result (λ v. v.items ≡ filter is_filled spans.now) }
{
    let mut filled = Vec::with_capacity(alloc, spans.len())?;
    'spans: for span in spans {
        if span.size > 0 {
            filled.push(*span)?;
        }
    }
    Ok(filled)
}

// Whether each segment begins at or after the end of the previous one.
fn stands_in_row(spans: &[Span]) -> bool
    ensures { result ≡ stands_in_row 0 spans.now }
{
    let mut end: u64 = 0;
    'spans: for span in spans {
        if (span.base as u64) < end {
            return false;
        }
        end = span.base as u64 + span.size as u64;
    }
    true
}

// Whether the sizes add up to more than the limit.
fn is_too_large(spans: &[Span]) -> bool
    ensures { result ≡ nat_lt image_limit (sum_by (λ s. s.size) spans.now) }
{
    let mut total: u64 = 0;
    'spans: for span in spans {
        total += span.size as u64;
        if total > IMAGE_LIMIT as u64 {
            return true;
        }
    }
    false
}
