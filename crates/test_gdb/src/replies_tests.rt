//! What no clause says: answers that GDB 13.1 took in dialogues, where memory suffices.
use gdb_replies::{
    FixedReply, Reason, Signal, Stop, push_bytes, push_current_thread, push_number, push_piece,
    push_registers, push_stop, push_thread_list, push_thread_numbers, push_thread_state, push_word,
    target_document,
};
use hart_step::{Cause, Hart, HartState};
use std::alloc::AllocError;

// A stop at a breakpoint, and what differs in others.
const AT_BREAKPOINT: Stop = Stop {
    signal: Signal::Trap,
    hart: 0,
    sp: 0x115f0,
    s0: 0x11620,
    pc: 0x10180,
    reason: Some(Reason::SoftwareBreakpoint),
};

const STOPS: [(Stop, &'static str); 6] = [
    (
        AT_BREAKPOINT,
        "T0502:f0150100;08:20160100;20:80010100;thread:1;swbreak:;",
    ),
    (
        Stop {
            hart: 9,
            reason: Some(Reason::HardwareBreakpoint),
            ..AT_BREAKPOINT
        },
        "T0502:f0150100;08:20160100;20:80010100;thread:a;hwbreak:;",
    ),
    (
        Stop {
            signal: Signal::Segment,
            reason: None,
            ..AT_BREAKPOINT
        },
        "T0b02:f0150100;08:20160100;20:80010100;thread:1;",
    ),
    (
        Stop {
            reason: Some(Reason::Write(0x1120c)),
            ..AT_BREAKPOINT
        },
        "T0502:f0150100;08:20160100;20:80010100;thread:1;watch:1120c;",
    ),
    (
        Stop {
            reason: Some(Reason::Access(0)),
            ..AT_BREAKPOINT
        },
        "T0502:f0150100;08:20160100;20:80010100;thread:1;awatch:0;",
    ),
    (
        Stop {
            hart: 1,
            sp: 0,
            s0: 0xffff_ffff,
            pc: 0x10094,
            reason: Some(Reason::ListBegin),
            ..AT_BREAKPOINT
        },
        "T0502:00000000;08:ffffffff;20:94000100;thread:2;replaylog:begin;",
    ),
];

#[test]
fn stops(rt: HostRuntime) -> Result<(), AllocError> {
    for (stop, wanted) in &STOPS {
        let mut out = Vec::new(rt.alloc());
        push_stop(&mut out, stop)?;
        assert!(rt; out.as_slice() == wanted.as_bytes(), "{wanted}");
    }
    Ok(())
}

const NUMBERS: [(u64, &'static str); 5] = [
    (0, "0"),
    (15, "f"),
    (16, "10"),
    (0x1120c, "1120c"),
    (0xffff_ffff, "ffffffff"),
];

#[test]
fn numbers(rt: HostRuntime) -> Result<(), AllocError> {
    for (number, wanted) in &NUMBERS {
        let mut out = Vec::new(rt.alloc());
        push_number(&mut out, *number)?;
        assert!(rt; out.as_slice() == wanted.as_bytes(), "{wanted}");
    }
    Ok(())
}

#[test]
fn registers(rt: HostRuntime) -> Result<(), AllocError> {
    let mut out = Vec::new(rt.alloc());
    let mut registers = [0; 32];
    registers[2] = 0x119f0;
    push_registers(&mut out, &registers, 0x101ec)?;
    assert!(rt; out.len() == 264);
    assert!(rt; &out[..24] == b"0000000000000000f0190100".as_slice());
    assert!(rt; &out[256..] == b"ec010100".as_slice());
    Ok(())
}

#[test]
fn digits(rt: HostRuntime) -> Result<(), AllocError> {
    let mut out = Vec::new(rt.alloc());
    push_bytes(&mut out, b"step 3 of 26\n")?;
    push_word(&mut out, 0x1234_abcd)?;
    assert!(rt; out.as_slice() == b"737465702033206f662032360acdab3412".as_slice());
    Ok(())
}

// Appends the list of threads of two harts in these states.
fn push_two(out: &mut Vec<u8>, first: HartState, second: HartState) -> Result<(), AllocError> {
    let hart = Hart {
        registers: [0; 32],
        pc: 0x10094,
        state: first,
    };
    let other = Hart {
        registers: [0; 32],
        pc: 0x10094,
        state: second,
    };
    push_thread_list(out, &[hart, other])
}

#[test]
fn threads(rt: HostRuntime) -> Result<(), AllocError> {
    let mut out = Vec::new(rt.alloc());
    push_two(
        &mut out,
        HartState::Faulted(Cause::Break),
        HartState::Exited(2),
    )?;
    let wanted = "<threads><thread id=\"1\" name=\"hart 0\">faulted Break</thread>\
                  <thread id=\"2\" name=\"hart 1\">exited a0 00000002</thread></threads>";
    assert!(rt; out.as_slice() == wanted.as_bytes());
    Ok(())
}

#[test]
fn thread_numbers(rt: HostRuntime) -> Result<(), AllocError> {
    let alloc = rt.alloc();
    let mut out = Vec::new(alloc);
    push_thread_numbers(&mut out, 3)?;
    push_current_thread(&mut out, 15)?;
    push_thread_state(alloc, &mut out, HartState::Running)?;
    assert!(rt; out.as_slice() == b"m1,2,3QC1072756e6e696e67".as_slice());
    Ok(())
}

// A place, a number of bytes, and the piece of `abcdef`.
const PIECES: [(u32, u32, &'static str); 9] = [
    (0, 3, "mabc"),
    (3, 2, "mde"),
    (3, 3, "ldef"),
    (5, 0x1000, "lf"),
    (0, 0xffff_ffff, "labcdef"),
    (0, 0, "m"),
    (6, 0, "l"),
    (6, 1, "l"),
    (0xffff_ffff, 0xffff_ffff, "l"),
];

#[test]
fn pieces(rt: HostRuntime) -> Result<(), AllocError> {
    for (from, count, wanted) in &PIECES {
        let mut out = Vec::new(rt.alloc());
        push_piece(&mut out, b"abcdef", *from, *count)?;
        assert!(rt; out.as_slice() == wanted.as_bytes(), "{wanted}");
    }
    Ok(())
}

#[test]
fn fixed(rt: HostRuntime) {
    let frame_pointer = "<reg name=\"fp\" bitsize=\"32\" regnum=\"8\" type=\"data_ptr\"/>";
    assert!(rt; target_document().contains(frame_pointer));
    assert!(rt; FixedReply::Unmapped.text() == "E14");
    assert!(rt; FixedReply::FirstStop.text() == "T05thread:1;");
}
