//! The code segments of an image.
ghost use Rattle.std.specs.Prelude.{◌≡◌, Some, IfOk};
ghost use Rattle.image.specs.Image.{IsSound, HaveLowRights};
ghost use Rattle.hart_local.specs.CodeMemory.{is_code, code_segments};

use image::{ElfFault, Image, Rights, Segment};
use std::alloc::{AllocError, Allocator};

// Whether bytes with these rights are executable and not writable.
fn is_code(rights: Rights) -> bool
    ensures { result ≡ is_code (Some rights.0) }
{
    rights.grants(Rights::EXECUTE) && !rights.grants(Rights::WRITE)
}

// A copy of a segment.
fn copy_of<A: Allocator, B: Allocator>(
    alloc: A,
    segment: &Segment<B>,
) -> Result<Segment<A>, AllocError>
    ensures { IfOk result (λ s. s ≡ segment.now) }
{
    Ok(Segment {
        base: segment.base,
        size: segment.size,
        rights: segment.rights,
        bytes: Vec::from_slice(alloc, &segment.bytes)?,
    })
}

// Copies of the code segments.
fn code_copies<A: Allocator + Copy, B: Allocator>(
    alloc: A,
    image: &Image<B>,
) -> Result<Vec<Segment<A>, A>, AllocError>
    ensures copied { IfOk result (λ copies. copies.items ≡ code_segments image.now) }
    ensures sound { IfOk result (λ _. IsSound image.now.entry image.now.segments) }
    ensures rights { IfOk result (λ _. HaveLowRights image.now.segments) }
{
    let segments = image.segments();
    let mut copies = Vec::new(alloc);
    'each: for segment in segments {
        if !is_code(segment.rights) {
            continue;
        }
        copies.push(copy_of(alloc, segment)?)?;
    }
    Ok(copies)
}

/// The image of the code segments. Fails only when out of memory.
pub fn code_image<A: Allocator + Copy, B: Allocator>(
    alloc: A,
    image: &Image<B>,
) -> Result<Image<A>, AllocError>
    ensures segments { IfOk result (λ m. m.segments ≡ code_segments image.now) }
    ensures sound { IfOk result (λ _. IsSound image.now.entry image.now.segments) }
{
    let copies = code_copies(alloc, image)?;
    match Image::new(alloc, image.entry(), copies) {
        Ok(code) => Ok(code),
        Err(fault) => {
            // Some of the segments of a sound image pass all checks.
            prove!(matches!(fault, ElfFault::Memory));
            Err(AllocError)
        }
    }
}
