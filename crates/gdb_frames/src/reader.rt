//! The reader of frames.
ghost use Rattle.std.specs.Prelude.{◌≡◌, [], IfOk, IfErr, IfNone, OnOk, OnErr, length};
ghost use Rattle.gdb_frames.specs.declared.found.Place.TheVariants.{Outside};
ghost use Rattle.gdb_frames.specs.Items.{Advances};
ghost use Rattle.gdb_frames.specs.Reading.{reader_state, found_at, state_after, judged_packet};

use crate::digits::hex_value;
use crate::found::{Advance, Found, FrameFault, Place};
use crate::sum::checksum;
use std::alloc::{AllocError, Allocator};
use std::marker::Model;

/// Reads packets and acknowledgments byte by byte. A `$` begins a packet, also inside another one,
/// which is then forgotten; bytes outside packets that are neither `+` nor `-` are passed over. The
/// two bytes after a packet's `#` are its checksum, whatever they are.
#[derive(Drop)]
pub struct FrameReader<A: Allocator> {
    place: Place,
    body: Vec<u8, A>,
}

impl<A: Allocator> Model for FrameReader<A> {
    ghost use Rattle.gdb_frames.specs.Reading.{ReaderState, reader_state};

    ghost Value = { ReaderState };

    ghost view = { λ r. reader_state r.place r.body.items };
}

// What a packet with this data and these two bytes of a checksum is.
fn judge(body: &[u8], first: u8, second: u8) -> Found
    ensures { result ≡ judged_packet body.now first second }
{
    let (Some(high), Some(low)) = (hex_value(first), hex_value(second)) else {
        return Found::BadPacket;
    };
    if 16 * high + low == checksum(body) {
        Found::Packet
    } else {
        Found::BadPacket
    }
}

impl<A: Allocator> FrameReader<A> {
    /// A reader between packets.
    pub fn new(alloc: A) -> FrameReader<A>
        ensures { result ≡ reader_state Outside [] }
    {
        FrameReader {
            place: Place::Outside,
            body: Vec::new(alloc),
        }
    }

    /// The data of the packet that was found last, until the next byte is read.
    pub fn body(&self) -> &[u8]
        ensures { result.now ≡ self.now.body }
    {
        let _ = &self.place;
        &self.body
    }

    // A byte between packets.
    fn outside(&mut self, byte: u8) -> Option<Found>
        requires { self.old.place ≡ Outside }
        ensures found { result ≡ found_at self.old byte }
        ensures next { self.new ≡ state_after self.old byte }
    {
        match byte {
            b'$' => {
                self.place = Place::Inside;
                self.body.clear();
                None
            }
            b'+' => Some(Found::Ack),
            b'-' => Some(Found::Again),
            _ => None,
        }
    }

    // A byte of a packet's data, or the one behind it.
    fn inside(&mut self, byte: u8) -> Result<(), AllocError>
        requires { self.old.place ≡ Place.Inside }
        ensures next { OnOk result (self.new ≡ state_after self.old byte) }
        ensures unchanged { OnErr result (self.new ≡ self.old) }
    {
        match byte {
            b'$' => self.body.clear(),
            b'#' => self.place = Place::Mark,
            _ => self.body.push(byte)?,
        }
        Ok(())
    }

    /// Reads a byte, and returns what it completes. If the host refuses memory, nothing is read.
    pub fn read(&mut self, byte: u8) -> Result<Option<Found>, AllocError>
        ensures found { IfOk result (λ found. found ≡ found_at self.old byte) }
        ensures next { OnOk result (self.new ≡ state_after self.old byte) }
        ensures unchanged { OnErr result (self.new ≡ self.old) }
    {
        match self.place {
            Place::Outside => Ok(self.outside(byte)),
            Place::Inside => {
                self.inside(byte)?;
                Ok(None)
            }
            Place::Mark => {
                self.place = Place::Digit(byte);
                Ok(None)
            }
            Place::Digit(first) => {
                self.place = Place::Outside;
                Ok(Some(judge(&self.body, first, byte)))
            }
        }
    }

    /// Reads bytes up to the first that completes something, or all of them.
    pub fn advance(&mut self, bytes: &[u8]) -> Result<Advance, FrameFault>
        ensures read { IfOk result (λ a. Advances self.old self.new bytes.now a.used a.found) }
        ensures all { IfOk result (λ a. IfNone a.found (a.used ≡ length bytes.now)) }
        ensures fault { IfErr result (λ fault.
            Advances self.old self.new bytes.now fault.used None) }
    {
        'bytes: for (index, byte) in bytes.iter().enumerate() {
            let Ok(found) = self.read(*byte) else {
                return Err(FrameFault { used: index });
            };
            if found.is_some() {
                let used = index + 1;
                return Ok(Advance { used, found });
            }
        }
        Ok(Advance {
            used: bytes.len(),
            found: None,
        })
    }
}
