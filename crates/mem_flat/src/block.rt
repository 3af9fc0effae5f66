//! The bytes of one segment.
ghost use Rattle.std.specs.Prelude.{◌≡◌, ◌+◌, ◌^◌, ◌<◌, ◌≤◌, Some, IfOk, length, slice_index};
ghost use Rattle.mem_store.specs.Memory.{grants, little_endian};
ghost use Rattle.mem_flat.specs.Blocks.{filled, block_after};

use image::{Rights, Segment};
use std::alloc::{AllocError, Allocator};
use std::marker::Model;

/// All bytes of one segment, their base, and their rights.
#[derive(Drop)]
pub struct Block<A: Allocator> {
    base: u32,
    rights: Rights,
    bytes: Vec<u8, A>,
}

impl<A: Allocator> Model for Block<A> {
    ghost use Rattle.std.specs.Prelude.{◌+◌, ◌^◌, ◌≤◌, length};
    ghost use Rattle.image.specs.Segment.{SegmentValue};

    ghost Value = { SegmentValue };

    ghost view = { λ b. record {
      base = b.base;
      size = length b.bytes.items;
      rights = b.rights.0;
      bytes = b.bytes.items;
    } };

    ghost invariant = { λ b. b.base + length b.bytes.items ≤ 2 ^ 32 };
}

impl<A: Allocator> Block<A> {
    /// The block of a segment. Fails when out of memory.
    pub fn of_segment<B: Allocator>(alloc: A, segment: &Segment<B>) -> Result<Block<A>, AllocError>
        requires in_range { segment.now.base + segment.now.size ≤ 2 ^ 32 }
        requires fits { length segment.now.bytes ≤ segment.now.size }
        ensures { IfOk result (λ b. b ≡ filled segment.now) }
    {
        let mut bytes = Vec::with_capacity(alloc, segment.size as usize)?;
        bytes.extend_from_slice(&segment.bytes)?;
        bytes.resize(segment.size as usize, 0)?;
        Ok(Block {
            base: segment.base,
            rights: segment.rights,
            bytes,
        })
    }

    /// A copy of the block. Fails when out of memory.
    pub fn copy(&self, alloc: A) -> Result<Block<A>, AllocError>
        ensures { IfOk result (λ b. b ≡ self.now) }
    {
        Ok(Block {
            base: self.base,
            rights: self.rights,
            bytes: Vec::from_slice(alloc, &self.bytes)?,
        })
    }

    /// The first address.
    #[inline]
    pub fn base(&self) -> u32
        ensures { result ≡ self.now.base }
    {
        self.base
    }

    /// The size in bytes.
    #[inline]
    pub fn size(&self) -> usize
        ensures value { result ≡ self.now.size }
        ensures in_range { self.now.base + self.now.size ≤ 2 ^ 32 }
        ensures whole { length self.now.bytes ≡ self.now.size }
    {
        let _ = &self.base;
        self.bytes.len()
    }

    /// Whether the block has one of the wanted rights.
    #[inline]
    pub fn grants(&self, wanted: Rights) -> bool
        ensures { result ≡ grants wanted.0 (Some self.now.rights) }
    {
        self.rights.grants(wanted)
    }

    /// The byte at an offset.
    #[inline]
    pub fn byte(&self, offset: usize) -> u8
        requires { offset < self.now.size }
        ensures { result ≡ slice_index self.now.bytes offset }
    {
        self.bytes[offset]
    }

    /// The two bytes from an offset on, little-endian.
    #[inline]
    pub fn read16(&self, offset: usize) -> u16
        requires { offset + 2 ≤ self.now.size }
        ensures { result ≡ little_endian 2 (λ k. slice_index self.now.bytes (offset + k)) }
    {
        u16::from_le_bytes([self.bytes[offset], self.bytes[offset + 1]])
    }

    /// The four bytes from an offset on, little-endian.
    #[inline]
    pub fn read32(&self, offset: usize) -> u32
        requires { offset + 4 ≤ self.now.size }
        ensures { result ≡ little_endian 4 (λ k. slice_index self.now.bytes (offset + k)) }
    {
        u32::from_le_bytes([
            self.bytes[offset],
            self.bytes[offset + 1],
            self.bytes[offset + 2],
            self.bytes[offset + 3],
        ])
    }

    /// Writes a byte at an offset.
    #[inline]
    pub fn write8(&mut self, offset: usize, value: u8)
        requires { offset < self.old.size }
        ensures value { self.new ≡ block_after 1 self.old offset value }
        ensures whole { length self.old.bytes ≡ self.old.size }
    {
        self.bytes[offset] = value;
    }

    /// Writes a number into the two bytes from an offset on, little-endian.
    #[inline]
    pub fn write16(&mut self, offset: usize, value: u16)
        requires { offset + 2 ≤ self.old.size }
        ensures value { self.new ≡ block_after 2 self.old offset value }
        ensures whole { length self.old.bytes ≡ self.old.size }
    {
        let [b0, b1] = value.to_le_bytes();
        let bytes = &mut self.bytes[..];
        bytes[offset] = b0;
        bytes[offset + 1] = b1;
    }

    /// Writes a number into the four bytes from an offset on, little-endian.
    #[inline]
    pub fn write32(&mut self, offset: usize, value: u32)
        requires { offset + 4 ≤ self.old.size }
        ensures value { self.new ≡ block_after 4 self.old offset value }
        ensures whole { length self.old.bytes ≡ self.old.size }
    {
        let [b0, b1, b2, b3] = value.to_le_bytes();
        let bytes = &mut self.bytes[..];
        bytes[offset] = b0;
        bytes[offset + 1] = b1;
        bytes[offset + 2] = b2;
        bytes[offset + 3] = b3;
    }
}
