//! ELF files for tests.
use object_library::{Kind, words, zeros};
use std::alloc::{AllocError, Allocator};

/// An ELF file of 92 bytes with one segment: `addi a7, zero, 93` and `ecall`.
#[rattlefmt::skip]
pub static EXITS: [u8; 92] = [
    127, 69, 76, 70, 1, 1, 1, 0, 0, 0, 0, 0, 0, 0, 0, 0,
    2, 0, 243, 0, 1, 0, 0, 0, 0, 0, 1, 0, 52, 0, 0, 0,
    0, 0, 0, 0, 0, 0, 0, 0, 52, 0, 32, 0, 1, 0, 40, 0,
    0, 0, 0, 0, 1, 0, 0, 0, 84, 0, 0, 0, 0, 0, 1, 0,
    0, 0, 1, 0, 8, 0, 0, 0, 8, 0, 0, 0, 5, 0, 0, 0,
    4, 0, 0, 0, 147, 8, 208, 5, 115, 0, 0, 0,
];

/// The facts of that file.
pub const EXITS_FACTS: &str =
    "entry 00010000\nsegment 00010000 8 r-x\nsymbols none\nlibrary none\n";

/// Its listing.
pub const EXITS_LISTING: &str =
    "# segment 00010000 8\naddi a7, zero, 93  # 00010000 05d00893\necall  # 00010004 00000073\n";

// The length of an object's text, in bytes.
fn text_length(kind: Kind) -> u32 {
    match kind {
        Kind::Swap | Kind::Add => 60,
        Kind::LrSc => 64,
        Kind::AdoptCommit => 136,
        Kind::Rounds => 160,
    }
}

/// An ELF file of an object: a header of 52 bytes, two program headers, and the text.
pub fn object_file<A: Allocator>(alloc: A, kind: Kind) -> Result<Vec<u8, A>, AllocError> {
    let size = text_length(kind);
    #[rattlefmt::skip]
    let headers = [
        0x464c_457f, 0x0001_0101, 0, 0, 0x00f3_0002, 1, 0x0001_0000, 52, 0, 0, 0x0020_0034, 0x0028_0002, 0,
        1, 116, 0x0001_0000, 0x0001_0000, size, size, 5, 4,
        1, 0, 0x0001_1000, 0x0001_1000, 0, zeros(kind), 6, 4,
    ];
    let mut bytes = Vec::new(alloc);
    for word in headers {
        bytes.extend_from_slice(&u32::to_le_bytes(word))?;
    }
    for word in words(kind) {
        bytes.extend_from_slice(&word.to_le_bytes())?;
    }
    Ok(bytes)
}
