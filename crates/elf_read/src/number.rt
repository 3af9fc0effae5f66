//! The little-endian numbers in a file.
ghost use Rattle.std.specs.Prelude.{◌≡◌, ◌+◌, ◌≤◌, length};
ghost use Rattle.elf_read.specs.Number.{word_at, half_at};

use byteorder::{ByteOrder, LittleEndian};

/// The 32-bit number at an offset, little-endian.
#[tactic(auto, unfolding(crate::specs::Number::word_at))]
pub fn word_at(bytes: &[u8], place: usize) -> u32
    requires { place + 4 ≤ length bytes.now }
    ensures { result ≡ word_at bytes.now place }
{
    let (_, rest) = bytes.split_at(place);
    LittleEndian::read_u32(rest)
}

/// The 16-bit number at an offset, little-endian.
#[tactic(auto, unfolding(crate::specs::Number::half_at))]
pub fn half_at(bytes: &[u8], place: usize) -> u16
    requires { place + 2 ≤ length bytes.now }
    ensures { result ≡ half_at bytes.now place }
{
    let (_, rest) = bytes.split_at(place);
    LittleEndian::read_u16(rest)
}
