//! The checksum of a packet.
ghost use Rattle.std.specs.Prelude.{◌≡◌};
ghost use Rattle.gdb_frames.specs.Frames.{checksum};

/// The checksum of a packet's data: the sum of its bytes, modulo 256.
pub fn checksum(body: &[u8]) -> u8
    ensures { result ≡ checksum body.now }
{
    let mut total = 0u8;
    'bytes: for byte in body {
        total = total.wrapping_add(*byte);
    }
    total
}
