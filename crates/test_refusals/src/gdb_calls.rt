//! Packets of a session with GDB, each answered at one place.
use crate::moves::turns;
use cmd_gdb::answer_packet;
use debug_session::Debugger;
use gdb_session::{Next, Talk};
use machine::Inputs;
use std::alloc::{AllocError, Allocator, Global};
use test_images::{CONDITIONAL, writable_program};
use test_refusing::{Call, tried};

// A packet and its answer, behind three of twelve choices.
#[derive(Clone, Copy)]
struct Packet(&'static str, &'static str);

// One of each kind of answer; `qRcmd` has the lines `goto 5`, `schedule 3 4` and `harts`.
#[rattlefmt::skip]
const PACKETS: [Packet; 14] = [
    Packet("m11000,4", "00000000"),
    Packet("p8", "00100100"),
    Packet("Z0,1000c,4", "OK"),
    Packet("Z4,11000,4", "OK"),
    Packet("qXfer:threads:read::0,20", "m<threads><thread id=\"1\" name=\"ha"),
    Packet("vCont;c", "T0502:00000000;08:00100100;20:08000100;thread:1;watch:11000;"),
    Packet("vCont;s:2;c", "T0502:00000000;08:00100100;20:08000100;thread:1;watch:11000;"),
    Packet("vCont;s:1", "T0502:00000000;08:00100100;20:08000100;thread:1;watch:11000;"),
    Packet("bs", "T0502:00000000;08:00100100;20:04000100;thread:1;"),
    Packet("bc", "T0502:00000000;08:00000000;20:00000100;thread:1;replaylog:begin;"),
    Packet("qRcmd,676f746f2035", "737465702035206f662031322c206e657874206861727420300a"),
    Packet("qRcmd,7363686564756c6520332034",
        "3e2033206831203030303130303034206c722e772074302c20287330290a"),
    Packet("qRcmd,6861727473",
        "6861727420302072756e6e696e672072657365727665732030303031313030300a\
        6861727420312072756e6e696e670a"),
    Packet("G00", "E30"),
];

// A session of two harts behind three choices, with a breakpoint at the load and the word that
// they store watched.
fn begin<A: Allocator + Copy>(alloc: A) -> Result<Talk<A>, AllocError> {
    let image = writable_program(alloc, &CONDITIONAL)?;
    let Ok(inputs) = Inputs::new(&[7, 9]) else {
        return Err(AllocError);
    };
    let choices = turns(alloc, 12)?;
    if !choices.iter().all(|choice| choice.hart < 2) {
        return Err(AllocError);
    }
    let mut debugger = Debugger::new(alloc, image, inputs, choices)?;
    if debugger.goto(alloc, 3).is_err() {
        return Err(AllocError);
    }
    let mut talk = Talk::new(alloc, debugger);
    answer_packet(alloc, &mut talk, b"Z0,1000c,4")?;
    answer_packet(alloc, &mut talk, b"Z2,11000,4")?;
    Ok(talk)
}

// Whether a packet has its answer.
fn is_answered<A: Allocator + Copy>(
    alloc: A,
    talk: &mut Talk<A>,
    packet: &Packet,
) -> Result<bool, AllocError> {
    let Packet(body, wanted) = *packet;
    let answer = answer_packet(alloc, talk, body.as_bytes())?;
    Ok(answer.text.as_slice() == wanted.as_bytes() && answer.next == Next::Answered)
}

impl Call for Packet {
    // A packet that was refused memory leaves the session where it was: made again, it has the same
    // answer, or is refused memory again.
    fn answer<A: Allocator + Copy>(&self, alloc: A, _host: Global) -> Result<bool, AllocError> {
        let mut talk = begin(alloc)?;
        match is_answered(alloc, &mut talk, self) {
            Ok(is_full) => Ok(is_full),
            Err(AllocError) if talk.debugger.position() == 3 => {
                match is_answered(alloc, &mut talk, self) {
                    Ok(true) | Err(AllocError) => Err(AllocError),
                    Ok(false) => Ok(false),
                }
            }
            Err(AllocError) => Ok(false),
        }
    }
}

#[test]
fn packets_tell_want_of_memory(rt: HostRuntime) {
    for packet in &PACKETS {
        let Packet(body, _) = packet;
        assert!(rt; tried(rt.alloc(), packet) == Ok(()), "{body}");
    }
}
