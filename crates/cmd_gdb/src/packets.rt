//! Reads the packets and acknowledgments of a source, one at a time.

ghost use Rattle.std.specs.Prelude.{◌≡◌, ◌+◌, ◌-◌, ◌^◌, ◌<◌, Err, IfOk, IfSome, OnOk};
ghost use Rattle.cmd_gdb.specs.Reading.{ReadsTo};

use byte_io::{DeviceFault, ReadFault, Source};
use gdb_frames::{Found, FrameReader};
use std::alloc::Allocator;

/// What comes next, as soon as its last byte is read; `None` at the source's end, which drops a
/// packet that isn't complete. The data of a packet is the reader's `body`.
pub fn next_found<A: Allocator, S: Source>(
    source: &mut S,
    reader: &mut FrameReader<A>,
) -> Result<Option<Found>, ReadFault>
    requires { S.failures source.old < 2 ^ 64 - 1 }
    ensures found { IfOk result (λ found.
        ReadsTo (S.left source.old) (S.left source.new) reader.old reader.new found) }
    ensures nearer { IfOk result (λ found. IfSome found (λ _.
        S.room source.new < S.room source.old)) }
    ensures count { OnOk result (S.failures source.new ≡ S.failures source.old) }
    ensures device { result ≡ Err ReadFault.Device
        → S.failures source.new ≡ S.failures source.old + 1 }
{
    let mut piece = [0u8; 1];
    'bytes: loop {
        match source.read(&mut piece) {
            Ok(0) => return Ok(None),
            Ok(_) => match reader.read(piece[0]) {
                Ok(None) => {}
                Ok(Some(found)) => return Ok(Some(found)),
                Err(_) => return Err(ReadFault::Memory),
            },
            Err(DeviceFault) => return Err(ReadFault::Device),
        }
    }
}
