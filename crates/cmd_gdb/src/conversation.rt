//! A session with GDB: each packet is answered before more is read.

ghost use Rattle.std.specs.Prelude.{◌≡◌, ◌-◌, ◌^◌, ◌<◌, Err, IfOk, IfErr, IfSome};
ghost use Rattle.gdb_frames.specs.Items.{frames_of};
ghost use Rattle.cmd_gdb.specs.Serving.{standing_of, BeginsServed, Served};

use crate::packets::next_found;
use crate::sending::SendFault;
use crate::server::{Server, Turn};
use byte_io::{ReadFault, Sink, Source};
use cmd_debug::TalkFault;
use gdb_frames::FrameReader;
use std::alloc::Allocator;

/// Answers the packets of a source, each as soon as it is read, until one ends the session or none
/// is left. A packet that the source's end cuts is dropped.
pub fn serve<A: Allocator + Copy, S: Source, K: Sink>(
    alloc: A,
    server: &mut Server<A>,
    source: &mut S,
    sink: &mut K,
) -> Result<(), TalkFault>
    requires source_counts { S.failures source.old < 2 ^ 64 - 1 }
    requires sink_counts { K.failures sink.old < 2 ^ 64 - 1 }
    ensures done { IfOk result (λ _. IfSome (S.left source.old) (λ input.
        Served (standing_of server.old) (frames_of input) (K.held sink.old) (K.held sink.new))) }
    ensures begun { IfErr result (λ _. IfSome (S.left source.old) (λ input.
        BeginsServed (standing_of server.old) (frames_of input) (K.held sink.old)
        (K.held sink.new))) }
    ensures read { result ≡ Err TalkFault.Read → S.failures source.old < S.failures source.new }
    ensures write { result ≡ Err TalkFault.Write → K.failures sink.old < K.failures sink.new }
{
    let mut reader = FrameReader::new(alloc);
    'packets: loop {
        let found = match next_found(source, &mut reader) {
            Ok(Some(found)) => found,
            Ok(None) => return Ok(()),
            Err(ReadFault::Device) => return Err(TalkFault::Read),
            Err(ReadFault::Memory) => return Err(TalkFault::Memory),
        };
        match server.react(alloc, found, reader.body(), sink) {
            Ok(Turn::Next) => {}
            Ok(Turn::Last) => return Ok(()),
            Err(SendFault::Device) => return Err(TalkFault::Write),
            Err(SendFault::Memory) => return Err(TalkFault::Memory),
        }
    }
}
