//! Reads a source to its end, and writes a text whole.

ghost use Rattle.std.specs.Prelude.{◌≡◌, ◌+◌, ◌-◌, ◌^◌, ◌<◌, ℕ, take, OnErr, IfOk};
ghost use Rattle.std.specs.Io.KnownBytes.{Appends, Consumes, IsAtEnd};
ghost use Rattle.byte_io.specs.Device.{CountsFailure};

use crate::device::{DeviceFault, Sink, Source};
use std::alloc::Allocator;

// Number of bytes asked for in a call.
const PIECE: usize = 16384;

/// Why a source wasn't read to its end.
#[derive(Clone, Copy, PartialEq, Eq)]
pub enum ReadFault {
    /// The source has failed.
    Device,
    /// Out of memory.
    Memory,
}

/// Reads all that is left. The fault is `Device` only if the source's number of failures rose by
/// one.
pub fn read_all<A: Allocator + Copy, S: Source>(
    alloc: A,
    source: &mut S,
) -> Result<Vec<u8, A>, ReadFault>
    requires { S.failures source.old < 2 ^ 64 - 1 }
    ensures bytes { IfOk result (λ bytes.
        Consumes (S.left source.old) (S.left source.new) bytes.items) }
    ensures end { IfOk result (λ _. IsAtEnd (S.left source.new)) }
    ensures count { IfOk result (λ _. S.failures source.new ≡ S.failures source.old) }
    ensures device { result ≡ Err ReadFault.Device
        → S.failures source.new ≡ S.failures source.old + 1 }
    ensures memory { result ≡ Err ReadFault.Memory → S.failures source.new ≡ S.failures source.old }
{
    let mut bytes = Vec::new(alloc);
    let mut piece = [0u8; PIECE];
    'pieces: loop {
        match source.read(&mut piece) {
            Ok(0) => return Ok(bytes),
            Ok(n) => {
                if bytes.extend_from_slice(&piece[..n]).is_err() {
                    return Err(ReadFault::Memory);
                }
            }
            Err(DeviceFault) => return Err(ReadFault::Device),
        }
    }
}

/// Writes all of the bytes. After a failure the sink has a beginning of them.
pub fn write_all<K: Sink>(sink: &mut K, bytes: &[u8]) -> Result<(), DeviceFault>
    requires { K.failures sink.old < 2 ^ 64 - 1 }
    ensures ok { IfOk result (λ _. Appends (K.held sink.old) (K.held sink.new) bytes.now) }
    ensures err { OnErr result ((n : ℕ)
        × Appends (K.held sink.old) (K.held sink.new) (take n bytes.now)) }
    ensures count { CountsFailure result (K.failures sink.old) (K.failures sink.new) }
{
    let mut at = 0;
    'pieces: while at < bytes.len() {
        at += sink.write(&bytes[at..])?;
    }
    Ok(())
}
