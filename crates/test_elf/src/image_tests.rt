//! Properties without a clause: the checks on independent rows, the printed texts, and that calls
//! succeed.

use image::{ElfFault, Image, Rights, Segment};
use std::alloc::{AllocError, Global};

/// A segment: a base, a size, and a number of file bytes.
type Part = (u32, u32, usize);

fn segments_of(alloc: Global, parts: &[Part]) -> Result<Vec<Segment<Global>>, AllocError> {
    let mut segments = Vec::new(alloc);
    for (base, size, file_size) in parts {
        let mut bytes = Vec::new(alloc);
        bytes.resize(*file_size, 0x13)?;
        segments.push(Segment {
            base: *base,
            size: *size,
            rights: Rights::READ,
            bytes,
        })?;
    }
    Ok(segments)
}

/// An image of an entry and segments, and its fault.
struct Row {
    name: &'static str,
    entry: u32,
    parts: &'static [Part],
    fault: Option<ElfFault>,
}

/// The limit of each check, and pairs of neighbours in the order of the checks that both fail.
#[rattlefmt::skip]
static CHECKS: [Row; 15] = [
    Row { name: "nothing", entry: 0, parts: &[], fault: None },
    Row { name: "one shared byte", entry: 0, parts: &[(0x1000, 0x11, 0), (0x1010, 0x10, 0)], fault: Some(ElfFault::Overlap) },
    Row { name: "one shared byte, later first", entry: 0, parts: &[(0x1010, 0x10, 0), (0x1000, 0x11, 0)], fault: Some(ElfFault::Overlap) },
    Row { name: "inside, one between", entry: 0, parts: &[(0, 0x100, 0), (0x2000, 4, 0), (0x80, 1, 0)], fault: Some(ElfFault::Overlap) },
    Row { name: "adjacent", entry: 0, parts: &[(0x1010, 0x10, 0), (0x1000, 0x10, 0)], fault: None },
    Row { name: "empty inside another", entry: 0, parts: &[(0, 0x100, 0), (0x80, 0, 0)], fault: None },
    Row { name: "the limit", entry: 0, parts: &[(0, 0x80_0000, 0), (0x80_0000, 0x80_0000, 0)], fault: None },
    Row { name: "one over the limit", entry: 0, parts: &[(0, 0x100_0001, 0)], fault: Some(ElfFault::TooLarge) },
    Row { name: "the last page", entry: 0, parts: &[(0xffff_f000, 4096, 0)], fault: None },
    Row { name: "past the last page", entry: 0, parts: &[(0xffff_f000, 4097, 0)], fault: Some(ElfFault::PastEnd) },
    Row { name: "more file bytes", entry: 0, parts: &[(0x1000, 3, 4)], fault: Some(ElfFault::FileOverMem) },
    Row { name: "entry 2", entry: 2, parts: &[(0x1000, 4, 4)], fault: Some(ElfFault::EntryAlign) },
    Row { name: "11 before 12", entry: 2, parts: &[(0xffff_f000, 4097, 0), (0, 0, 1)], fault: Some(ElfFault::FileOverMem) },
    Row { name: "13 before 14", entry: 2, parts: &[(0, 0x100_0001, 0), (0, 1, 0)], fault: Some(ElfFault::Overlap) },
    Row { name: "14 before 16", entry: 2, parts: &[(0, 0x100_0001, 0)], fault: Some(ElfFault::TooLarge) },
];

// The fault of a row's image.
fn fault_of(alloc: Global, row: &Row) -> Result<Option<ElfFault>, AllocError> {
    let segments = segments_of(alloc, row.parts)?;
    Ok(Image::new(alloc, row.entry, segments).err())
}

fn checks() -> &'static [Row] {
    &CHECKS
}

#[test]
fn each_check_has_its_limit_and_its_place(rt: HostRuntime) {
    for row in checks() {
        assert!(rt; fault_of(rt.alloc(), row) == Ok(row.fault), "{}", row.name);
    }
}

fn stands_at(segment: &Segment<Global>, base: u32, size: u32) -> bool {
    segment.base == base && segment.size == size
}

// Whether an image has its entry and the segments that are not empty.
fn is_kept(image: &Image<Global>) -> bool {
    match image.segments() {
        [one, other] => {
            image.entry() == 0x1000 && stands_at(one, 0x2000, 4) && stands_at(other, 0x1000, 8)
        }
        _ => false,
    }
}

fn is_made_and_kept(alloc: Global) -> Result<bool, ElfFault> {
    let Ok(segments) = segments_of(alloc, &[(0x2000, 4, 1), (0, 0, 0), (0x1000, 8, 8)]) else {
        return Err(ElfFault::Memory);
    };
    let image = Image::new(alloc, 0x1000, segments)?;
    Ok(is_kept(&image))
}

#[test]
fn an_image_keeps_its_segments(rt: HostRuntime) {
    assert!(rt; is_made_and_kept(rt.alloc()) == Ok(true));
}

/// A fault, its number and its text.
struct Named {
    fault: ElfFault,
    number: Option<u8>,
    text: &'static str,
}

#[rattlefmt::skip]
const NAMES: [Named; 17] = [
    Named { fault: ElfFault::Short, number: Some(1), text: "elf fault 1 Short" },
    Named { fault: ElfFault::Magic, number: Some(2), text: "elf fault 2 Magic" },
    Named { fault: ElfFault::Class, number: Some(3), text: "elf fault 3 Class" },
    Named { fault: ElfFault::Encoding, number: Some(4), text: "elf fault 4 Encoding" },
    Named { fault: ElfFault::Version, number: Some(5), text: "elf fault 5 Version" },
    Named { fault: ElfFault::FileType, number: Some(6), text: "elf fault 6 FileType" },
    Named { fault: ElfFault::Machine, number: Some(7), text: "elf fault 7 Machine" },
    Named { fault: ElfFault::Compressed, number: Some(8), text: "elf fault 8 Compressed" },
    Named { fault: ElfFault::HeaderSize, number: Some(9), text: "elf fault 9 HeaderSize" },
    Named { fault: ElfFault::OutsideFile, number: Some(10), text: "elf fault 10 OutsideFile" },
    Named { fault: ElfFault::FileOverMem, number: Some(11), text: "elf fault 11 FileOverMem" },
    Named { fault: ElfFault::PastEnd, number: Some(12), text: "elf fault 12 PastEnd" },
    Named { fault: ElfFault::Overlap, number: Some(13), text: "elf fault 13 Overlap" },
    Named { fault: ElfFault::TooLarge, number: Some(14), text: "elf fault 14 TooLarge" },
    Named { fault: ElfFault::Dynamic, number: Some(15), text: "elf fault 15 Dynamic" },
    Named { fault: ElfFault::EntryAlign, number: Some(16), text: "elf fault 16 EntryAlign" },
    Named { fault: ElfFault::Memory, number: None, text: "out of memory" },
];

fn is_named(alloc: Global, row: &Named) -> Result<bool, AllocError> {
    let text = row.fault.to_string(alloc)?;
    Ok(row.fault.number() == row.number && text.as_str() == row.text)
}

#[test]
fn faults_are_named(rt: HostRuntime) {
    for row in &NAMES {
        assert!(rt; is_named(rt.alloc(), row) == Ok(true), "{}", row.text);
    }
}

/// Flags, and their rights.
struct Flags {
    flags: u32,
    executes: bool,
    writes: bool,
    reads: bool,
}

/// PF_X, PF_W and PF_R, and processor-specific bits, which are ignored.
#[rattlefmt::skip]
const FLAGS: [Flags; 6] = [
    Flags { flags: 0, executes: false, writes: false, reads: false },
    Flags { flags: 1, executes: true, writes: false, reads: false },
    Flags { flags: 2, executes: false, writes: true, reads: false },
    Flags { flags: 4, executes: false, writes: false, reads: true },
    Flags { flags: 0xf000_0005, executes: true, writes: false, reads: true },
    Flags { flags: 8, executes: false, writes: false, reads: false },
];

fn are_rights(row: &Flags) -> bool {
    let rights = Rights::of_flags(row.flags);
    rights.grants(Rights::EXECUTE) == row.executes
        && rights.grants(Rights::WRITE) == row.writes
        && rights.grants(Rights::READ) == row.reads
}

#[test]
fn rights_are_the_low_bits(rt: HostRuntime) {
    for row in &FLAGS {
        assert!(rt; are_rights(row), "{}", row.flags);
    }
}
