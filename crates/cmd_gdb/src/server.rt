//! The server's side of a session: what it sends for each packet and acknowledgment.

ghost use Rattle.std.specs.Prelude.{◌≡◌, ◌-◌, ◌^◌, ◌<◌, ℕ, [], Err, take, IfOk, OnErr, OnOk};
ghost use Rattle.std.specs.Io.KnownBytes.{Appends};
ghost use Rattle.debug_session.specs.Session.{session};
ghost use Rattle.gdb_frames.specs.Frames.{framed};
ghost use Rattle.gdb_frames.specs.Items.{FrameItem, item_of};
ghost use Rattle.gdb_session.specs.Talk.{talk_of};
ghost use Rattle.cmd_gdb.specs.Opening.{first_standing};
ghost use Rattle.cmd_gdb.specs.Serving.{after_turn, complaint, after_next, packet_sent, standing, standing_of, while_acks, Sends, SendsPart};

use crate::answer::{Answer, answer_packet};
use crate::sending::{SendFault, send, send_framed};
use byte_io::Sink;
use debug_session::Debugger;
use gdb_frames::Found;
use gdb_replies::FixedReply;
use gdb_session::{Next, Talk};
use std::alloc::Allocator;

/// The state of a session, and the packet that was sent last.
#[derive(Drop)]
pub struct Server<A: Allocator + Copy> {
    /// The state of the session.
    pub talk: Talk<A>,
    /// The packet that was sent last.
    pub last: Vec<u8, A>,
}

/// Whether a session goes on.
#[derive(Clone, Copy, PartialEq, Eq)]
pub enum Turn {
    /// More is read.
    Next,
    /// The session has ended.
    Last,
}

// Sends bytes while packets are acknowledged, and nothing after that.
fn send_while_acks<A: Allocator + Copy, K: Sink>(
    talk: &Talk<A>,
    sink: &mut K,
    bytes: &[u8],
) -> Result<(), SendFault>
    requires { K.failures sink.old < 2 ^ 64 - 1 }
    ensures sent { OnOk result (Appends (K.held sink.old) (K.held sink.new)
        (while_acks (talk_of talk.now) bytes.now [])) }
    ensures cut { OnErr result ((n : ℕ) × Appends (K.held sink.old) (K.held sink.new)
        (take n (while_acks (talk_of talk.now) bytes.now []))) }
    ensures count { OnOk result (K.failures sink.new ≡ K.failures sink.old) }
    ensures device { result ≡ Err SendFault.Device → K.failures sink.old < K.failures sink.new }
{
    if talk.acknowledges {
        return send(sink, bytes);
    }
    Ok(())
}

// Sends that a packet's checksum is wrong.
fn complain<A: Allocator + Copy, K: Sink>(
    alloc: A,
    talk: &Talk<A>,
    sink: &mut K,
) -> Result<(), SendFault>
    requires { K.failures sink.old < 2 ^ 64 - 1 }
    ensures sent { OnOk result (Appends (K.held sink.old) (K.held sink.new)
        (complaint (talk_of talk.now))) }
    ensures cut { OnErr result ((n : ℕ) × Appends (K.held sink.old) (K.held sink.new)
        (take n (complaint (talk_of talk.now)))) }
    ensures count { OnOk result (K.failures sink.new ≡ K.failures sink.old) }
    ensures device { result ≡ Err SendFault.Device → K.failures sink.old < K.failures sink.new }
{
    if talk.acknowledges {
        return send(sink, b"-");
    }
    send_framed(alloc, sink, FixedReply::BadChecksum.text().as_bytes())?;
    Ok(())
}

impl<A: Allocator + Copy> Server<A> {
    /// The state before the first packet, at the debugger's position.
    pub fn new(alloc: A, debugger: Debugger<A>) -> Server<A>
        ensures { standing_of result ≡ first_standing (session debugger) }
    {
        Server {
            talk: Talk::new(alloc, debugger),
            last: Vec::new(alloc),
        }
    }

    // Sends an answer, unless the session ends without one.
    #[tactic(auto, unfolding(crate::specs::Serving::packet_sent, crate::specs::Serving::after_next))]
    fn send_answer<K: Sink>(
        &mut self,
        alloc: A,
        answer: Answer<A>,
        sink: &mut K,
    ) -> Result<Turn, SendFault>
        requires { K.failures sink.old < 2 ^ 64 - 1 }
        ensures sent { OnOk result (Appends (K.held sink.old) (K.held sink.new)
            (packet_sent answer.next answer.text.items)) }
        ensures after { IfOk result (λ turn. after_turn turn (standing_of self.new)
            ≡ after_next answer.next (standing (talk_of self.old.talk) (framed answer.text.items))) }
        ensures cut { OnErr result ((n : ℕ) × Appends (K.held sink.old) (K.held sink.new)
            (take n (packet_sent answer.next answer.text.items))) }
        ensures count { OnOk result (K.failures sink.new ≡ K.failures sink.old) }
        ensures device { result ≡ Err SendFault.Device
            → K.failures sink.old < K.failures sink.new }
    {
        match answer.next {
            Next::Killed => Ok(Turn::Last),
            Next::Detached => {
                send_framed(alloc, sink, &answer.text)?;
                Ok(Turn::Last)
            }
            Next::Answered | Next::Move => {
                self.last = send_framed(alloc, sink, &answer.text)?;
                Ok(Turn::Next)
            }
        }
    }

    // Acknowledges a packet, then answers it. Its acknowledgment is sent before a move begins.
    fn answer<K: Sink>(&mut self, alloc: A, body: &[u8], sink: &mut K) -> Result<Turn, SendFault>
        requires { K.failures sink.old < 2 ^ 64 - 1 }
        ensures sends { IfOk result (λ turn. Sends (standing_of self.old)
            (FrameItem.whole body.now) (K.held sink.old) (K.held sink.new)
            (after_turn turn (standing_of self.new))) }
        ensures cut { OnErr result (SendsPart (standing_of self.old) (FrameItem.whole body.now)
            (K.held sink.old) (K.held sink.new)) }
        ensures count { OnOk result (K.failures sink.new ≡ K.failures sink.old) }
        ensures device { result ≡ Err SendFault.Device
            → K.failures sink.old < K.failures sink.new }
    {
        send_while_acks(&self.talk, sink, b"+")?;
        let Ok(answer) = answer_packet(alloc, &mut self.talk, body) else {
            return Err(SendFault::Memory);
        };
        self.send_answer(alloc, answer, sink)
    }

    /// Sends what a packet or an acknowledgment asks for; a packet's data is `body`. A packet is
    /// acknowledged and answered; `-` has the last packet sent again, as long as packets are
    /// acknowledged.
    pub(crate) fn react<K: Sink>(
        &mut self,
        alloc: A,
        found: Found,
        body: &[u8],
        sink: &mut K,
    ) -> Result<Turn, SendFault>
        requires { K.failures sink.old < 2 ^ 64 - 1 }
        ensures sends { IfOk result (λ turn. Sends (standing_of self.old)
            (item_of found body.now) (K.held sink.old) (K.held sink.new)
            (after_turn turn (standing_of self.new))) }
        ensures cut { OnErr result (SendsPart (standing_of self.old) (item_of found body.now)
            (K.held sink.old) (K.held sink.new)) }
        ensures count { OnOk result (K.failures sink.new ≡ K.failures sink.old) }
        ensures device { result ≡ Err SendFault.Device
            → K.failures sink.old < K.failures sink.new }
    {
        match found {
            Found::Packet => return self.answer(alloc, body, sink),
            Found::BadPacket => complain(alloc, &self.talk, sink)?,
            Found::Ack => {}
            Found::Again => send_while_acks(&self.talk, sink, &self.last)?,
        }
        Ok(Turn::Next)
    }
}
