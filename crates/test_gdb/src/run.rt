//! The run that the tests look at.
use debug_session::Debugger;
use gdb_session::Talk;
use machine::{Choice, Inputs};
use std::alloc::Global;
use test_images::writable_program;

// Each hart reserves a word and stores its address there if the reservation holds. It loads the
// word, stores the number of harts into its second byte, and adds that number to the word. Then it
// exits if the store-conditional stored, and else faults.
const PROGRAM: [u32; 9] = [
    0x0001_1437, // 10000: lui s0, 0x11
    0x1004_22af, // 10004: lr.w t0, (s0)
    0x1884_252f, // 10008: sc.w a0, s0, (s0)
    0x0004_2583, // 1000c: lw a1, 0(s0)
    0x00c4_00a3, // 10010: sb a2, 1(s0)
    0x00c4_232f, // 10014: amoadd.w t1, a2, (s0)
    0x05d0_0893, // 10018: addi a7, zero, 93
    0x40a8_88b3, // 1001c: sub a7, a7, a0
    0x0000_0073, // 10020: ecall
];

// The hart of each choice.
const HARTS: [u32; 20] = [0, 1, 0, 1, 0, 1, 0, 1, 0, 0, 1, 1, 0, 1, 0, 1, 0, 1, 0, 1];

/// A debugger at the start of the run.
pub fn begin(alloc: Global) -> Option<Debugger<Global>> {
    let mut choices = Vec::new(alloc);
    for hart in &HARTS {
        let choice = Choice {
            hart: *hart,
            refuse: false,
        };
        choices.push(choice).ok()?;
    }
    let image = writable_program(alloc, &PROGRAM).ok()?;
    let inputs = Inputs::new(&[7, 9]).ok()?;
    if !choices.iter().all(|choice| choice.hart < 2) {
        return None;
    }
    Debugger::new(alloc, image, inputs, choices).ok()
}

/// What the server can do.
pub const FEATURES: &str = "PacketSize=4000;QStartNoAckMode+;qXfer:features:read+;\
    qXfer:threads:read+;ReverseStep+;ReverseContinue+;vContSupported+;swbreak+;hwbreak+";

/// A session behind the first six choices.
pub fn talk_at_six(alloc: Global) -> Option<Talk<Global>> {
    let mut debugger = begin(alloc)?;
    debugger.goto(alloc, 6).ok()?;
    Some(Talk::new(alloc, debugger))
}
