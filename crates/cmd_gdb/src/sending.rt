//! Sends answers.

ghost use Rattle.std.specs.Prelude.{◌≡◌, ◌-◌, ◌^◌, ◌<◌, ℕ, Err, take, IfOk, OnErr, OnOk};
ghost use Rattle.std.specs.Io.KnownBytes.{Appends};
ghost use Rattle.gdb_frames.specs.Frames.{framed};

use byte_io::{DeviceFault, Sink, write_all};
use gdb_frames::push_framed;
use std::alloc::{AllocError, Allocator};

/// Why an answer wasn't sent.
#[derive(Clone, Copy, PartialEq, Eq)]
pub(crate) enum SendFault {
    /// The sink has failed.
    Device,
    /// Out of memory.
    Memory,
}

/// Sends bytes.
pub(crate) fn send<K: Sink>(sink: &mut K, bytes: &[u8]) -> Result<(), SendFault>
    requires { K.failures sink.old < 2 ^ 64 - 1 }
    ensures sent { OnOk result (Appends (K.held sink.old) (K.held sink.new) bytes.now) }
    ensures cut { OnErr result ((n : ℕ)
        × Appends (K.held sink.old) (K.held sink.new) (take n bytes.now)) }
    ensures count { OnOk result (K.failures sink.new ≡ K.failures sink.old) }
    ensures device { result ≡ Err SendFault.Device → K.failures sink.old < K.failures sink.new }
{
    match write_all(sink, bytes) {
        Ok(()) => Ok(()),
        Err(DeviceFault) => Err(SendFault::Device),
    }
}

// The packet of a text.
fn frame_of<A: Allocator>(alloc: A, text: &[u8]) -> Result<Vec<u8, A>, AllocError>
    ensures { IfOk result (λ frame. frame.items ≡ framed text.now) }
{
    let mut frame = Vec::new(alloc);
    push_framed(&mut frame, text)?;
    Ok(frame)
}

/// Sends a text as a packet, which it returns.
pub(crate) fn send_framed<A: Allocator, K: Sink>(
    alloc: A,
    sink: &mut K,
    text: &[u8],
) -> Result<Vec<u8, A>, SendFault>
    requires { K.failures sink.old < 2 ^ 64 - 1 }
    ensures frame { IfOk result (λ frame. frame.items ≡ framed text.now) }
    ensures sent { OnOk result (Appends (K.held sink.old) (K.held sink.new) (framed text.now)) }
    ensures cut { OnErr result ((n : ℕ)
        × Appends (K.held sink.old) (K.held sink.new) (take n (framed text.now))) }
    ensures count { OnOk result (K.failures sink.new ≡ K.failures sink.old) }
    ensures device { result ≡ Err SendFault.Device → K.failures sink.old < K.failures sink.new }
{
    let Ok(frame) = frame_of(alloc, text) else {
        return Err(SendFault::Memory);
    };
    send(sink, &frame)?;
    Ok(frame)
}
