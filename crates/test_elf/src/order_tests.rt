//! Properties of the order of checks without a clause: of two failed checks, the earlier one is
//! reported.

use crate::loading_tests::WORDS;
use crate::patching::patched;
use elf_read::load;
use image::ElfFault;
use std::alloc::{AllocError, Global};

/// A program header: type, offset, address, file size and memory size.
type Header = [u32; 5];

/// A place in the file's header, and the byte that replaces the one there.
type Byte = (usize, u8);

/// A change that makes one check fail, and its fault.
enum Break {
    /// Bytes of the file's header.
    Bytes(ElfFault, &'static [Byte]),
    /// Program headers.
    Headers(ElfFault, &'static [Header]),
    /// Nothing is wrong.
    Nothing,
}

impl Break {
    fn fault(&self) -> Option<ElfFault> {
        match self {
            Break::Bytes(fault, _) | Break::Headers(fault, _) => Some(*fault),
            Break::Nothing => None,
        }
    }

    fn bytes(&self) -> &'static [Byte] {
        match self {
            Break::Bytes(_, bytes) => bytes,
            _ => &[],
        }
    }

    fn headers(&self) -> &'static [Header] {
        match self {
            Break::Headers(_, headers) => headers,
            _ => &[],
        }
    }
}

/// The changes in the order of the checks.
#[rattlefmt::skip]
static BREAKS: [Break; 21] = [
    Break::Bytes(ElfFault::Magic, &[(0, 0x7e)]),
    Break::Bytes(ElfFault::Class, &[(4, 2)]),
    Break::Bytes(ElfFault::Encoding, &[(5, 2)]),
    Break::Bytes(ElfFault::Version, &[(6, 0)]),
    Break::Bytes(ElfFault::Version, &[(20, 2)]),
    Break::Bytes(ElfFault::FileType, &[(16, 3)]),
    Break::Bytes(ElfFault::Machine, &[(18, 62)]),
    Break::Bytes(ElfFault::Compressed, &[(36, 1)]),
    Break::Bytes(ElfFault::HeaderSize, &[(40, 51)]),
    Break::Bytes(ElfFault::HeaderSize, &[(42, 33)]),
    Break::Bytes(ElfFault::HeaderSize, &[(44, 255), (45, 255)]),
    Break::Bytes(ElfFault::OutsideFile, &[(31, 1)]),
    Break::Headers(ElfFault::OutsideFile, &[[1, 0xffff_ffff, 0x2000_0000, 1, 1]]),
    Break::Headers(ElfFault::FileOverMem, &[[1, 0, 0x3000_0000, 1, 0]]),
    Break::Headers(ElfFault::PastEnd, &[[1, 0, 0xffff_ffff, 0, 2]]),
    Break::Headers(ElfFault::Overlap, &[[1, 0, 0x0000_ffff, 0, 2]]),
    Break::Headers(ElfFault::TooLarge, &[[1, 0, 0x5000_0000, 0, 0x0100_0000]]),
    Break::Headers(ElfFault::Dynamic, &[[2, 0, 0, 0, 0]]),
    Break::Headers(ElfFault::Dynamic, &[[3, 0, 0, 0, 0]]),
    Break::Bytes(ElfFault::EntryAlign, &[(24, 2)]),
    Break::Nothing,
];

fn breaks() -> &'static [Break] {
    &BREAKS
}

/// The header of the one segment that each file has.
const SEGMENT: [Header; 1] = [[1, 0, 0x0001_0000, 1, 1]];

fn push_header(file: &mut Vec<u8, Global>, header: &Header) -> Result<(), AllocError> {
    let [kind, offset, address, file_size, memory_size] = header;
    for word in [*kind, *offset, *address, 0, *file_size, *memory_size, 4, 1] {
        file.extend_from_slice(&word.to_le_bytes())?;
    }
    Ok(())
}

// Appends program headers, and counts them in the file's header.
fn push_headers(file: &mut Vec<u8, Global>, headers: &[Header]) -> Result<(), AllocError> {
    for header in headers {
        push_header(file, header)?;
        if let Some(count) = file.get_mut(44) {
            *count = count.wrapping_add(1);
        }
    }
    Ok(())
}

fn put_bytes(file: &mut Vec<u8, Global>, bytes: &[Byte]) {
    for (place, byte) in bytes {
        if let Some(found) = file.get_mut(*place) {
            *found = *byte;
        }
    }
}

// A file with one segment, and the changes of two rows. The second row's headers come before the
// first row's, so that places do not decide.
fn file_of(alloc: Global, one: &Break, other: &Break) -> Result<Vec<u8, Global>, AllocError> {
    let mut file = patched(alloc, &WORDS, &[(44, 0x0028_0000)])?;
    file.truncate(52);
    push_headers(&mut file, &SEGMENT)?;
    push_headers(&mut file, other.headers())?;
    push_headers(&mut file, one.headers())?;
    put_bytes(&mut file, one.bytes());
    put_bytes(&mut file, other.bytes());
    Ok(file)
}

// Whether the fault of the first of two rows is reported, and of the file without its last header
// byte that it is short.
fn is_told_first(alloc: Global, one: &Break, other: &Break) -> Result<bool, AllocError> {
    let mut file = file_of(alloc, one, other)?;
    let fault = load(alloc, &file).err();
    file.truncate(51);
    Ok(fault == one.fault() && load(alloc, &file).err() == Some(ElfFault::Short))
}

// Whether the fault of the row at a place is reported before that of each later row.
fn is_told_before_later(alloc: Global, place: usize, one: &Break) -> Result<bool, AllocError> {
    for other in breaks().iter().skip(place.saturating_add(1)) {
        if !is_told_first(alloc, one, other)? {
            return Ok(false);
        }
    }
    Ok(true)
}

#[test]
fn of_two_faults_the_first_is_told(rt: HostRuntime) {
    for (place, one) in breaks().iter().enumerate() {
        assert!(rt;
            is_told_before_later(rt.alloc(), place, one) == Ok(true),
            "row {place}"
        );
    }
}
