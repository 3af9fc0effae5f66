//! Images.
ghost use Rattle.std.specs.Prelude.{◌≡◌, map, filter, IfOk};
ghost use Rattle.image.specs.Image.{IsSound, HaveLowRights, span_of, is_mapped, with_low_rights, image_or_fault, Gives};

use crate::fault::ElfFault;
use crate::segment::Segment;
use crate::space::check_space;
use crate::span::Span;
use std::alloc::{AllocError, Allocator};
use std::marker::Model;

/// A program's entry and its segments.
///
/// No segment is empty or has more file bytes than its size. No two segments share an address, and
/// none ends past the last address. Their sizes add up to at most `IMAGE_LIMIT`. The entry is a
/// multiple of 4. Rights have only the low three bits, so images with the same rights are equal.
#[derive(Drop)]
pub struct Image<A: Allocator> {
    entry: u32,
    segments: Vec<Segment<A>, A>,
}

impl<A: Allocator> Model for Image<A> {
    ghost use Rattle.image.specs.Image.{ImageValue, IsSound, HaveLowRights};

    ghost Value = { ImageValue };

    ghost view = { λ m. record { entry = m.entry; segments = m.segments.items } };

    ghost invariant = { λ m. IsSound m.entry m.segments.items × HaveLowRights m.segments.items };
}

impl<A: Allocator + Copy> Image<A> {
    /// Makes an image of an entry and segments. Empty segments are dropped, and of the rights the
    /// low three bits are kept.
    ///
    /// The fault is the first check that fails, in the order of `ElfFault`; empty segments are
    /// checked too.
    #[tactic(auto, using(crate::proofs::Sound::new_is_sound, crate::proofs::RightsLemmas::low_have_low), unfolding(crate::specs::Image::image_or_fault, crate::specs::Image::image_fault))]
    pub fn new(alloc: A, entry: u32, segments: Vec<Segment<A>, A>) -> Result<Image<A>, ElfFault>
        ensures { Gives result (image_or_fault entry segments.items) }
    {
        let Ok(spans) = spans_of(alloc, &segments) else {
            return Err(ElfFault::Memory);
        };
        let Ok(fault) = check_space(alloc, &spans) else {
            return Err(ElfFault::Memory);
        };
        if let Some(fault) = fault {
            return Err(fault);
        }
        if entry % 4 != 0 {
            return Err(ElfFault::EntryAlign);
        }
        Ok(image_of(entry, low_rights(mapped_segments(segments))))
    }
}

impl<A: Allocator> Image<A> {
    /// The address of the first instruction.
    pub fn entry(&self) -> u32
        ensures { result ≡ self.now.entry }
    {
        self.entry
    }

    /// The segments, in the order in which they were given to `new`.
    pub fn segments(&self) -> &[Segment<A>]
        ensures value { result.now ≡ self.now.segments }
        ensures sound { IsSound self.now.entry self.now.segments }
        ensures rights { HaveLowRights self.now.segments }
    {
        // The proof of `sound` needs the entry that the segments were checked with; this reads it.
        let _ = &self.entry;
        &self.segments
    }
}

/// An image of an entry and segments that are known to be sound, such as those of a file that has
/// passed all checks.
pub fn image_of<A: Allocator>(entry: u32, segments: Vec<Segment<A>, A>) -> Image<A>
    requires sound { IsSound entry segments.items }
    requires rights { HaveLowRights segments.items }
    ensures { result ≡ record { entry = entry; segments = segments.items } }
{
    Image { entry, segments }
}

// The spans of segments, for the checks.
fn spans_of<A: Allocator + Copy>(
    alloc: A,
    segments: &[Segment<A>],
) -> Result<Vec<Span, A>, AllocError>
    ensures { IfOk result (λ v. v.items ≡ map span_of segments.now) }
{
    let mut spans = Vec::with_capacity(alloc, segments.len())?;
    'segments: for segment in segments {
        spans.push(segment.span())?;
    }
    Ok(spans)
}

// The segments that are not empty.
fn mapped_segments<A: Allocator>(segments: Vec<Segment<A>, A>) -> Vec<Segment<A>, A>
    ensures { result.items ≡ filter is_mapped segments.items }
{
    let mut mapped = segments;
    mapped.retain(|s| s.is_mapped());
    mapped
}

// The segments with the low three bits of their rights.
fn low_rights<A: Allocator>(segments: Vec<Segment<A>, A>) -> Vec<Segment<A>, A>
    ensures { result.items ≡ map with_low_rights segments.items }
{
    let mut lowered = segments;
    for segment in lowered.iter_mut() {
        segment.rights = segment.rights.low();
    }
    lowered
}
