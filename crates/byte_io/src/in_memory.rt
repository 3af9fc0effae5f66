//! Devices over memory.
ghost use Rattle.std.specs.Prelude.{length, ◌≡◌, Some, []};

use crate::device::{DeviceFault, Sink, Source};
use std::alloc::Allocator;

/// A source over a slice of bytes.
#[derive(Drop)]
pub struct MemorySource<'a> {
    rest: &'a [u8],
    failures: u64,
}

impl<'a> MemorySource<'a> {
    /// All of the bytes are left.
    pub fn new(bytes: &'a [u8]) -> MemorySource<'a>
        ensures left { ⟦<MemorySource<'a> as Source>⟧.left result ≡ Some bytes.now }
        ensures failures { ⟦<MemorySource<'a> as Source>⟧.failures result ≡ 0 }
    {
        MemorySource {
            rest: bytes,
            failures: 0,
        }
    }
}

impl<'a> Source for MemorySource<'a> {
    ghost left = { λ s. Some s.rest.now };

    ghost failures = { λ s. s.failures };

    ghost room = { λ s. length s.rest.now };

    fn read(&mut self, piece: &mut [u8]) -> Result<usize, DeviceFault> {
        let count = self.rest.len().min(piece.len());
        let (front, rest) = self.rest.split_at(count);
        piece[..count].copy_from_slice(front);
        self.rest = rest;
        Ok(count)
    }
}

/// A sink that holds its bytes.
#[derive(Drop)]
pub struct MemorySink<A: Allocator> {
    bytes: Vec<u8, A>,
    failures: u64,
}

impl<A: Allocator> MemorySink<A> {
    /// An empty sink.
    pub fn new(alloc: A) -> MemorySink<A>
        ensures held { ⟦<MemorySink<A> as Sink>⟧.held result ≡ Some [] }
        ensures failures { ⟦<MemorySink<A> as Sink>⟧.failures result ≡ 0 }
    {
        MemorySink {
            bytes: Vec::new(alloc),
            failures: 0,
        }
    }

    /// The bytes written so far.
    pub fn bytes(&self) -> &[u8]
        ensures { ⟦<MemorySink<A> as Sink>⟧.held self.now ≡ Some result.now }
    {
        &self.bytes
    }
}

impl<A: Allocator> Sink for MemorySink<A> {
    ghost held = { λ s. Some s.bytes.items };

    ghost failures = { λ s. s.failures };

    fn write(&mut self, piece: &[u8]) -> Result<usize, DeviceFault> {
        match self.bytes.extend_from_slice(piece) {
            Ok(()) => Ok(piece.len()),
            Err(_) => {
                self.failures += 1;
                Err(DeviceFault)
            }
        }
    }
}
