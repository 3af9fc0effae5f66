//! Pages.
ghost use Rattle.std.specs.Prelude.{◌≡◌, ℕ, ◌+◌, ◌^◌, ◌≤◌, length, slice_index};
ghost use Rattle.mem_store.specs.Memory.{little_endian};
ghost use Rattle.mem_flat.specs.Blocks.{spelled};
ghost use Rattle.mem_paged.specs.Number.{width_of, stored_value};
ghost use Rattle.mem_paged.specs.Runs.{byte_of_run};

use crate::number::Number;

/// The size of a page in bytes.
pub const PAGE_SIZE: usize = 4096;

/// The number of pages in the 32-bit address space.
pub const PAGES: u32 = 0x10_0000;

/// The bytes of a page, 0 where no byte is mapped.
#[derive(Clone, Copy, Drop)]
pub struct Page {
    pub bytes: [u8; PAGE_SIZE],
}

// A byte, or 0 past the last.
fn byte_or_zero(bytes: &[u8], i: usize) -> u8
    ensures { result ≡ slice_index bytes.now i }
{
    match bytes.get(i) {
        Some(byte) => *byte,
        None => 0,
    }
}

impl Page {
    /// The two bytes from an offset on, little-endian.
    #[inline]
    pub fn read16(&self, at: usize) -> u16
        requires { at + 2 ≤ 4096 }
        ensures { result ≡ little_endian 2 (λ k. slice_index self.now.bytes (at + k)) }
    {
        u16::from_le_bytes([self.bytes[at], self.bytes[at + 1]])
    }

    /// The four bytes from an offset on, little-endian.
    #[inline]
    pub fn read32(&self, at: usize) -> u32
        requires { at + 4 ≤ 4096 }
        ensures { result ≡ little_endian 4 (λ k. slice_index self.now.bytes (at + k)) }
    {
        u32::from_le_bytes([
            self.bytes[at],
            self.bytes[at + 1],
            self.bytes[at + 2],
            self.bytes[at + 3],
        ])
    }

    /// Writes a number into the bytes from an offset on.
    #[inline]
    pub fn write(&mut self, at: usize, number: Number)
        requires { at + width_of number ≤ 4096 }
        ensures value { self.new.bytes ≡ spelled (width_of number) self.old.bytes at (stored_value number) }
        ensures whole { length self.old.bytes ≡ 4096 }
    {
        match number {
            Number::Byte(value) => self.bytes[at] = value,
            Number::Half(value) => {
                let [b0, b1] = value.to_le_bytes();
                self.bytes[at] = b0;
                self.bytes[at + 1] = b1;
            }
            Number::Word(value) => {
                let [b0, b1, b2, b3] = value.to_le_bytes();
                self.bytes[at] = b0;
                self.bytes[at + 1] = b1;
                self.bytes[at + 2] = b2;
                self.bytes[at + 3] = b3;
            }
        }
    }

    /// Copies `count` bytes, from byte `first` of the source on, to an offset; 0 past the source's
    /// last.
    pub fn fill(&mut self, at: usize, bytes: &[u8], first: usize, count: usize)
        requires room { at + count ≤ 4096 }
        requires small { first + count ≤ 2 ^ 32 }
        ensures { (o : ℕ) → slice_index self.new.bytes o
            ≡ byte_of_run at count bytes.now first (slice_index self.old.bytes o) o }
    {
        'bytes: for k in 0..count {
            self.bytes[at + k] = byte_or_zero(bytes, first + k);
        }
    }
}
