//! A segment of memory.
ghost use Rattle.std.specs.Prelude.{◌≡◌};
ghost use Rattle.image.specs.Image.{span_of, is_mapped};

use crate::rights::Rights;
use crate::span::Span;
use std::alloc::Allocator;
use std::marker::Model;

/// A segment: its first address, its size in bytes, its rights, and its first bytes. The others are
/// 0.
#[derive(Drop)]
pub struct Segment<A: Allocator> {
    /// The first address (p_vaddr).
    pub base: u32,
    /// The size in bytes (p_memsz).
    pub size: u32,
    /// The rights of each of its bytes (p_flags).
    pub rights: Rights,
    /// The bytes from the file (p_filesz of them).
    pub bytes: Vec<u8, A>,
}

impl<A: Allocator> Model for Segment<A> {
    ghost use Rattle.image.specs.Segment.{SegmentValue};

    ghost Value = { SegmentValue };

    ghost view = { λ s. record {
      base = s.base;
      size = s.size;
      rights = s.rights.0;
      bytes = s.bytes.items;
    } };
}

impl<A: Allocator> Segment<A> {
    /// The segment's span, for the checks.
    pub(crate) fn span(&self) -> Span
        ensures { result ≡ span_of self.now }
    {
        Span {
            base: self.base,
            size: self.size,
            file_size: self.bytes.len(),
        }
    }

    /// Whether the segment is not empty.
    pub(crate) fn is_mapped(&self) -> bool
        ensures { result ≡ is_mapped self.now }
    {
        self.size > 0
    }
}
