//! Properties of files without a clause: the checks on rows written by hand, that calls succeed,
//! and many segments.

use crate::patching::{Patch, patched};
use elf_read::load;
use image::{ElfFault, Image, Rights, Segment};
use std::alloc::{AllocError, Global};

/// A file of 128 bytes: two adjacent segments, with bytes 1 to 12 after the headers.
#[rattlefmt::skip]
pub(crate) const WORDS: [u32; 32] = [
    0x464c_457f, 0x0001_0101, 0, 0, // the class, the byte order and the version
    0x00f3_0002, 1, 0x0001_0000, 52, 0, 0, // executable, RISC-V; the entry; program headers at 52
    0x0020_0034, 0x0028_0002, 0, // the sizes of the headers; two program headers
    1, 116, 0x0001_0000, 0, 8, 12, 5, 4096, // offset, address, p_paddr, file and memory size, r-x
    1, 124, 0x0001_000c, 0, 4, 4, 6, 4096, // the same, rw-
    0x0403_0201, 0x0807_0605, 0x0c0b_0a09,
];

// The fault of the file of `WORDS` with other words at some places.
fn fault_of(alloc: Global, patches: &[Patch]) -> Result<Option<ElfFault>, AllocError> {
    let file = patched(alloc, &WORDS, patches)?;
    Ok(load(alloc, &file).err())
}

/// A place, the word that replaces the one there, and the fault of the file.
type WordRow = (usize, u32, Option<ElfFault>);

/// For each check files that fail it, and the nearest files that pass.
const CHECKS: [WordRow; 58] = [
    // of the file's header
    (8, 0xffff_ffff, None),
    (0, 0x464c_457e, Some(ElfFault::Magic)),
    (0, 0x464c_447f, Some(ElfFault::Magic)),
    (0, 0x464d_457f, Some(ElfFault::Magic)),
    (0, 0x474c_457f, Some(ElfFault::Magic)),
    (4, 0x0001_0100, Some(ElfFault::Class)),
    (4, 0x0001_0102, Some(ElfFault::Class)),
    (4, 0x0001_0001, Some(ElfFault::Encoding)),
    (4, 0x0001_0201, Some(ElfFault::Encoding)),
    (4, 0x0000_0101, Some(ElfFault::Version)),
    (4, 0x0002_0101, Some(ElfFault::Version)),
    (4, 0xff01_0101, None),
    (20, 0, Some(ElfFault::Version)),
    (20, 0x0100_0001, Some(ElfFault::Version)),
    (16, 0x00f3_0001, Some(ElfFault::FileType)),
    (16, 0x00f3_0003, Some(ElfFault::FileType)),
    (16, 0x00f3_0102, Some(ElfFault::FileType)),
    (16, 0x00f2_0002, Some(ElfFault::Machine)),
    (16, 0x00f4_0002, Some(ElfFault::Machine)),
    (16, 0x01f3_0002, Some(ElfFault::Machine)),
    (36, 1, Some(ElfFault::Compressed)),
    (36, 0xffff_ffff, Some(ElfFault::Compressed)),
    (36, 0xffff_fffe, None),
    (40, 0x0020_0033, Some(ElfFault::HeaderSize)),
    (40, 0x0020_0035, Some(ElfFault::HeaderSize)),
    (40, 0x001f_0034, Some(ElfFault::HeaderSize)),
    (40, 0x0021_0034, Some(ElfFault::HeaderSize)),
    (44, 0x0028_ffff, Some(ElfFault::HeaderSize)),
    (44, 0x0028_fffe, Some(ElfFault::OutsideFile)),
    (44, 0x0028_0000, None),
    (28, 64, None),
    (28, 65, Some(ElfFault::OutsideFile)),
    (28, 0xffff_ffff, Some(ElfFault::OutsideFile)),
    (24, 0x0001_0001, Some(ElfFault::EntryAlign)),
    (24, 0x0001_0002, Some(ElfFault::EntryAlign)),
    (24, 0x0001_0003, Some(ElfFault::EntryAlign)),
    (24, 0x0001_0004, None),
    (24, 0xffff_fffc, None),
    // of a program header
    (56, 120, None),
    (56, 121, Some(ElfFault::OutsideFile)),
    (56, 0xffff_ffff, Some(ElfFault::OutsideFile)),
    (68, 12, None),
    (68, 13, Some(ElfFault::OutsideFile)),
    (68, 0xffff_ffff, Some(ElfFault::OutsideFile)),
    (72, 8, None),
    (72, 7, Some(ElfFault::FileOverMem)),
    (104, 0, Some(ElfFault::FileOverMem)),
    (60, 0xffff_fff4, None),
    (60, 0xffff_fff5, Some(ElfFault::PastEnd)),
    (72, 0xffff_ffff, Some(ElfFault::PastEnd)),
    (92, 0x0001_000b, Some(ElfFault::Overlap)),
    (92, 0x0000_fffc, None),
    (104, 0x00ff_fff4, None),
    (104, 0x00ff_fff5, Some(ElfFault::TooLarge)),
    (84, 0, None),
    (84, 2, Some(ElfFault::Dynamic)),
    (84, 3, Some(ElfFault::Dynamic)),
    (84, 4, None),
];

#[test]
fn each_check_refuses_its_files_alone(rt: HostRuntime) {
    for (place, word, fault) in &CHECKS {
        assert!(rt;
            fault_of(rt.alloc(), &[(*place, *word)]) == Ok(*fault),
            "{word} at {place}"
        );
    }
}

/// The file of `WORDS` with other words at some places, and its fault.
struct Patched {
    name: &'static str,
    patches: &'static [Patch],
    fault: Option<ElfFault>,
}

#[rattlefmt::skip]
static PATCHED: [Patched; 20] = [
    // Fields that matter only in some files.
    Patched { name: "no headers, and their size is 0", patches: &[(40, 52), (44, 0x0028_0000)], fault: None },
    Patched { name: "no headers, and the file's header has another size", patches: &[(40, 51), (44, 0x0028_0000)], fault: Some(ElfFault::HeaderSize) },
    Patched { name: "no headers, and their place is outside", patches: &[(28, 0xffff_ffff), (44, 0x0028_0000)], fault: None },
    Patched { name: "no file bytes", patches: &[(56, 0xffff_ffff), (68, 0)], fault: None },
    Patched { name: "another header's bytes outside", patches: &[(84, 0x7000_0003), (88, 0xffff_ffff)], fault: None },
    Patched { name: "another header's larger file size", patches: &[(84, 4), (104, 3)], fault: None },
    Patched { name: "another header past the end", patches: &[(84, 4), (92, 0xffff_ffff)], fault: None },
    Patched { name: "another header inside a segment", patches: &[(84, 6), (92, 0x0001_0000)], fault: None },
    Patched { name: "another header's large size", patches: &[(84, 6), (104, 0xffff_ffff)], fault: None },
    // Segments at the end of memory.
    Patched { name: "the last page", patches: &[(60, 0xffff_f000), (72, 4096)], fault: None },
    Patched { name: "a byte more than the last page", patches: &[(60, 0xffff_f000), (72, 4097)], fault: Some(ElfFault::PastEnd) },
    Patched { name: "an empty segment inside another", patches: &[(92, 0x0001_0004), (100, 0), (104, 0)], fault: None },
    Patched { name: "an empty segment at the last address", patches: &[(92, 0xffff_ffff), (100, 0), (104, 0)], fault: None },
    Patched { name: "the last address", patches: &[(92, 0xffff_ffff), (100, 1), (104, 1)], fault: None },
    Patched { name: "past the last address", patches: &[(92, 0xffff_ffff), (100, 1), (104, 2)], fault: Some(ElfFault::PastEnd) },
    Patched { name: "sizes that are 2^32 together", patches: &[(60, 0), (72, 0x8000_0000), (92, 0x8000_0000), (104, 0x8000_0000)], fault: Some(ElfFault::TooLarge) },
    // Headers may overlap one another, and the bytes of a segment.
    Patched { name: "a program header in the file's header, and one behind it", patches: &[(28, 20)], fault: Some(ElfFault::Overlap) },
    Patched { name: "a program header in the file's header", patches: &[(28, 20), (44, 0x0028_0001)], fault: None },
    Patched { name: "a segment filled from its own header", patches: &[(56, 52)], fault: None },
    Patched { name: "two segments filled from the same bytes", patches: &[(88, 116)], fault: None },
];

fn patched_rows() -> &'static [Patched] {
    &PATCHED
}

#[test]
fn fields_are_looked_at_where_they_count(rt: HostRuntime) {
    for row in patched_rows() {
        assert!(rt;
            fault_of(rt.alloc(), row.patches) == Ok(row.fault),
            "{}",
            row.name
        );
    }
}

/// The patch that leaves only the file's header, without program headers. The file loads.
const HEADER_ALONE: [Patch; 1] = [(44, 0x0028_0000)];

// The fault of a file without this many of its last bytes.
fn fault_without(
    alloc: Global,
    patches: &[Patch],
    removed: usize,
) -> Result<Option<ElfFault>, AllocError> {
    let mut file = patched(alloc, &WORDS, patches)?;
    file.truncate(file.len().saturating_sub(removed));
    Ok(load(alloc, &file).err())
}

// Whether the file and the header alone, without this many bytes, have the expected fault.
fn is_prefix_refused(alloc: Global, removed: usize) -> Result<bool, AllocError> {
    let whole = fault_without(alloc, &[], removed)?;
    let header = fault_without(alloc, &HEADER_ALONE, removed)?;
    if removed <= 76 {
        Ok(whole == Some(ElfFault::OutsideFile) && header == None)
    } else {
        Ok(whole == Some(ElfFault::Short) && header == Some(ElfFault::Short))
    }
}

#[test]
fn each_prefix_is_refused(rt: HostRuntime) {
    for removed in 1..=128usize {
        assert!(rt;
            is_prefix_refused(rt.alloc(), removed) == Ok(true),
            "without {removed} bytes"
        );
    }
}

/// The expected contents of a segment.
struct Wanted {
    base: u32,
    size: u32,
    flags: u32,
    bytes: &'static [u8],
}

const FIRST_SEGMENT: Wanted = Wanted {
    base: 0x0001_0000,
    size: 12,
    flags: 5,
    bytes: &[1, 2, 3, 4, 5, 6, 7, 8],
};

const SECOND_SEGMENT: Wanted = Wanted {
    base: 0x0001_000c,
    size: 4,
    flags: 6,
    bytes: &[9, 10, 11, 12],
};

fn has(segment: &Segment<Global>, wanted: &Wanted) -> bool {
    segment.base == wanted.base
        && segment.size == wanted.size
        && segment.rights == Rights::of_flags(wanted.flags)
        && segment.bytes.as_slice() == wanted.bytes
}

// Whether an image is that of the file of `WORDS`.
fn is_of_words(image: &Image<Global>) -> bool {
    match image.segments() {
        [first, second] => {
            image.entry() == 0x0001_0000
                && has(first, &FIRST_SEGMENT)
                && has(second, &SECOND_SEGMENT)
        }
        _ => false,
    }
}

fn is_loaded(alloc: Global) -> Result<bool, ElfFault> {
    let Ok(file) = patched(alloc, &WORDS, &[]) else {
        return Err(ElfFault::Memory);
    };
    let image = load(alloc, &file)?;
    Ok(is_of_words(&image))
}

#[test]
fn an_image_has_what_the_file_says(rt: HostRuntime) {
    assert!(rt; is_loaded(rt.alloc()) == Ok(true));
}

// Appends a program header of one byte at an address.
fn push_byte_header(file: &mut Vec<u8, Global>, address: u32) -> Result<(), AllocError> {
    for word in [1, 0, address, 0, 1, 1, 4, 1] {
        file.extend_from_slice(&word.to_le_bytes())?;
    }
    Ok(())
}

// A file of 65,534 segments of one byte each, at falling addresses; the last is at `last`.
fn many_segments(alloc: Global, last: u32) -> Result<Vec<u8, Global>, AllocError> {
    let mut file = patched(alloc, &WORDS, &[(44, 0x0028_fffe)])?;
    file.truncate(52);
    for left in 0..65_534u32 {
        let address = if left < 65_533 {
            0x0010_0000 - left
        } else {
            last
        };
        push_byte_header(&mut file, address)?;
    }
    Ok(file)
}

// The number of segments of such a file.
fn count_of_many(alloc: Global, last: u32) -> Result<usize, ElfFault> {
    let Ok(file) = many_segments(alloc, last) else {
        return Err(ElfFault::Memory);
    };
    let image = load(alloc, &file)?;
    Ok(image.segments().len())
}

#[test]
fn many_segments_load(rt: HostRuntime) {
    assert!(rt; count_of_many(rt.alloc(), 0) == Ok(65_534));
    assert!(rt; count_of_many(rt.alloc(), 0x0010_0000) == Err(ElfFault::Overlap));
}
