//! The listing of an image.

ghost use Rattle.std.specs.Prelude.{◌≡◌, ◌≤◌, ◌^◌, ◌+◌, ◌++◌, IfOk, OnOk, length, map, filter, string_bytes};
ghost use Rattle.std.specs.List.{All, flat_map};
ghost use Rattle.isa_disasm.specs.Segments.{is_executable, segment_text, contents_of, HasRoom, ListsSegments, now_of};

use crate::lines::push_lines;
use image::{Image, Rights, Segment};
use isa_names::Word;
use std::alloc::{AllocError, Allocator};

/// The listing of an image. Executable segments come by rising base; each has a line such as `#
/// segment 00010000 60` (base, and size in decimal), and then the lines of its bytes. Fails when
/// out of memory.
pub fn list_image<A: Allocator + Copy>(alloc: A, image: &Image<A>) -> Result<String<A>, AllocError>
    ensures { IfOk result (λ text. ListsSegments image.now.segments (string_bytes text)) }
{
    let mut order = executable_segments(alloc, image.segments())?;
    order.sort_by_key(|segment| segment.base)?;
    let mut text = String::new(alloc);
    push_segments(alloc, &mut text, &order)?;
    Ok(text)
}

// References to the executable segments.
fn executable_segments<'a, A: Allocator>(
    alloc: A,
    segments: &'a [Segment<A>],
) -> Result<Vec<&'a Segment<A>, A>, AllocError>
    ensures { IfOk result (λ v. map now_of v.items ≡ filter is_executable segments.now) }
{
    let mut executable = Vec::new(alloc);
    'segments: for segment in segments {
        if segment.rights.grants(Rights::EXECUTE) {
            executable.push(segment)?;
        }
    }
    Ok(executable)
}

// Appends the texts of segments in order.
fn push_segments<A: Allocator + Copy>(
    alloc: A,
    text: &mut String<A>,
    segments: &[&Segment<A>],
) -> Result<(), AllocError>
    requires { All HasRoom (map now_of segments.now) }
    ensures { OnOk result (string_bytes text.new
        ≡ string_bytes text.old ++ flat_map segment_text (map now_of segments.now)) }
{
    'segments: for segment in segments {
        push_segment(alloc, text, segment)?;
    }
    Ok(())
}

// Appends a segment's head and its lines.
#[tactic(auto, unfolding(crate::specs::Segments::segment_text))]
fn push_segment<A: Allocator + Copy>(
    alloc: A,
    text: &mut String<A>,
    segment: &Segment<A>,
) -> Result<(), AllocError>
    requires { HasRoom segment.now }
    ensures { OnOk result (string_bytes text.new
        ≡ string_bytes text.old ++ segment_text segment.now) }
{
    let (base, size) = (Word(segment.base), segment.size);
    writeln!(text, "# segment {base} {size}")?;
    let contents = contents_of(alloc, segment)?;
    push_lines(text, segment.base, &contents)
}

// The bytes of a segment in memory: those of the file, then zeros.
fn contents_of<A: Allocator + Copy>(
    alloc: A,
    segment: &Segment<A>,
) -> Result<Vec<u8, A>, AllocError>
    requires { HasRoom segment.now }
    ensures { IfOk result (λ v. v.items ≡ contents_of segment.now) }
{
    let mut contents = Vec::with_capacity(alloc, segment.size as usize)?;
    contents.extend_from_slice(&segment.bytes)?;
    contents.resize(segment.size as usize, 0)?;
    Ok(contents)
}
