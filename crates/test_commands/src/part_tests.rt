//! Tests what no clause says: printed texts, words from another source, and failing devices.
use cmd_run::{
    CommandFault, DeviceFault, Exit, Expect, Failing, FullSink, HexFault, Input, MemorySink,
    MemorySource, ReadFault, ReaderSource, Status, WriterSink, ends_text, hex_image, read_all,
    read_hex, write_all,
};
use hart_step::{Cause, Hart, HartState};
use sched_text::ChoiceFault;
use std::alloc::{AllocError, Global};

fn hart(a0: u32, a1: u32, pc: u32, state: HartState) -> Hart {
    let mut registers = [0; 32];
    registers[10] = a0;
    registers[11] = a1;
    Hart {
        registers,
        pc,
        state,
    }
}

// a0, a1, pc and state of a hart, and its line.
#[rattlefmt::skip]
const ENDS: [(u32, u32, u32, HartState, &str); 12] = [
    (9, 7, 0x10010, HartState::Exited(9), "hart 0 exited a0 00000009 a1 00000007\n"),
    (1, 2, 0x10000, HartState::Running, "hart 1 running pc 00010000\n"),
    (0, 0, 0xffff_fffc, HartState::Faulted(Cause::FetchAccess), "hart 2 faulted FetchAccess pc fffffffc\n"),
    (0, 0, 0x10000, HartState::Faulted(Cause::Illegal), "hart 3 faulted Illegal pc 00010000\n"),
    (0, 0, 0x10000, HartState::Faulted(Cause::LoadMisaligned), "hart 4 faulted LoadMisaligned pc 00010000\n"),
    (0, 0, 0x10008, HartState::Faulted(Cause::LoadAccess), "hart 5 faulted LoadAccess pc 00010008\n"),
    (0, 0, 0x10000, HartState::Faulted(Cause::StoreMisaligned), "hart 6 faulted StoreMisaligned pc 00010000\n"),
    (0, 0, 0x10000, HartState::Faulted(Cause::StoreAccess), "hart 7 faulted StoreAccess pc 00010000\n"),
    (0, 0, 0x10000, HartState::Faulted(Cause::JumpMisaligned), "hart 8 faulted JumpMisaligned pc 00010000\n"),
    (0, 0, 0x10000, HartState::Faulted(Cause::BadCall), "hart 9 faulted BadCall pc 00010000\n"),
    (0, 0, 0x10000, HartState::Faulted(Cause::Break), "hart 10 faulted Break pc 00010000\n"),
    (0xabcd_ef01, 0xffff_ffff, 0, HartState::Exited(1), "hart 11 exited a0 abcdef01 a1 ffffffff\n"),
];

// No rule is judged, and harts may run.
const UNJUDGED: Expect = Expect {
    rule: None,
    exit: Exit::May,
};

// The harts of these ends, and their lines one after the other.
fn harts_and_lines(alloc: Global) -> Result<(Vec<Hart, Global>, String<Global>), AllocError> {
    let mut harts = Vec::new(alloc);
    let mut wanted = String::new(alloc);
    for (a0, a1, pc, state, line) in &ENDS {
        harts.push(hart(*a0, *a1, *pc, *state))?;
        wanted.push_str(line)?;
    }
    Ok((harts, wanted))
}

// Whether the harts' ends are printed in this way, and the status is that of a fault.
fn are_ends_printed(alloc: Global) -> Result<bool, AllocError> {
    let (harts, wanted) = harts_and_lines(alloc)?;
    let (text, status) = ends_text(alloc, UNJUDGED, &[], &[], harts.as_slice())?;
    Ok(text.as_str() == wanted.as_str() && status.code() == 3)
}

// The status of a run that leaves its hart running.
fn running_status(alloc: Global, exit: Exit) -> Result<Status, AllocError> {
    let expect = Expect { exit, ..UNJUDGED };
    let running = hart(1, 2, 4, HartState::Running);
    let (_, status) = ends_text(alloc, expect, &[], &[], &[running])?;
    Ok(status)
}

#[test]
fn ends_are_printed(rt: HostRuntime) -> Result<(), AllocError> {
    assert!(rt; are_ends_printed(rt.alloc()) == Ok(true));
    let status = running_status(rt.alloc(), Exit::May)?;
    assert!(rt; status.code() == 0);
    let status = running_status(rt.alloc(), Exit::Must)?;
    assert!(rt; status.code() == 3);
    Ok(())
}

// Texts of words, and the words or the fault.
#[rattlefmt::skip]
const WORDS: [(&str, Result<&[u32], HexFault>); 9] = [
    ("", Ok(&[])),
    ("000112B7 00b2A023\r\n\t0002a503\n", Ok(&[0x0001_12b7, 0x00b2_a023, 0x0002_a503])),
    ("ffffffff", Ok(&[0xffff_ffff])),
    ("0000006", Err(HexFault::BadWord(0))),
    ("000112B7 00B2A023 0002A503 5D00893 x", Err(HexFault::BadWord(3))),
    ("000000130", Err(HexFault::BadWord(0))),
    ("0000001g", Err(HexFault::BadWord(0))),
    ("0x000013", Err(HexFault::BadWord(0))),
    ("00000013 00000013\u{c}", Err(HexFault::BadWord(1))),
];

// Whether a text is read as expected.
fn has_words(alloc: Global, text: &str, wanted: Result<&[u32], HexFault>) -> bool {
    match read_hex(alloc, text.as_bytes()) {
        Ok(words) => match wanted {
            Ok(wanted) => words.as_slice() == wanted,
            Err(_) => false,
        },
        Err(fault) => wanted.err() == Some(fault),
    }
}

#[test]
fn words_are_read(rt: HostRuntime) {
    for (text, wanted) in &WORDS {
        assert!(rt; has_words(rt.alloc(), text, *wanted), "{text}");
    }
}

// Number of words in a text, the rest of the text, and the number read or the fault.
const COUNTS: [(usize, &str, Result<usize, HexFault>); 4] = [
    (2048, "", Ok(2048)),
    (2048, "00000013", Err(HexFault::TooMany(2048))),
    (2048, "x", Err(HexFault::TooMany(2048))),
    (2047, "x", Err(HexFault::BadWord(2047))),
];

// `count` words and the rest of a text.
fn words_of(alloc: Global, count: usize, last: &str) -> Result<String<Global>, AllocError> {
    let mut text = String::new(alloc);
    for _ in 0..count {
        text.push_str("00000013 ")?;
    }
    text.push_str(last)?;
    Ok(text)
}

// Number of words read from `count` words and the rest of a text.
fn count_of(alloc: Global, count: usize, last: &str) -> Result<usize, HexFault> {
    let Ok(text) = words_of(alloc, count, last) else {
        return Err(HexFault::Memory);
    };
    let words = read_hex(alloc, text.as_bytes())?;
    Ok(words.len())
}

#[test]
fn words_are_counted(rt: HostRuntime) {
    for (count, last, wanted) in &COUNTS {
        assert!(rt; count_of(rt.alloc(), *count, last) == *wanted, "{last}");
    }
}

const LAID_OUT: [u8; 8] = [0xb7, 0x12, 0x01, 0x00, 0x23, 0xa0, 0xb2, 0x00];

// Whether two words make an image of one segment, with their bytes at its front.
fn is_laid_out(alloc: Global) -> Result<bool, AllocError> {
    let image = hex_image(alloc, &[0x0001_12b7, 0x00b2_a023])?;
    let [segment] = image.segments() else {
        return Ok(false);
    };
    Ok(
        image.entry() == 0x10000
            && segment.base == 0x10000
            && segment.size == 8192
            && segment.bytes.as_slice() == LAID_OUT.as_slice(),
    )
}

#[test]
fn words_are_laid_out(rt: HostRuntime) {
    assert!(rt; is_laid_out(rt.alloc()) == Ok(true));
}

// Three pieces.
static BYTES: [u8; 40_000] = [7; 40_000];

// Whether all bytes are read of a source in memory that passes a number of reads, or the fault.
fn is_read(alloc: Global, passed: u64) -> Result<bool, ReadFault> {
    let mut source = Failing::new(MemorySource::new(&BYTES), passed);
    let read = read_all(alloc, &mut source)?;
    Ok(read.as_slice() == BYTES.as_slice())
}

// The same for a source over a reader.
fn is_read_of_reader(alloc: Global) -> Result<bool, ReadFault> {
    let mut source = ReaderSource::new(BYTES.as_slice());
    let read = read_all(alloc, &mut source)?;
    Ok(read.as_slice() == BYTES.as_slice())
}

// Whether a sink in memory has all bytes after they were written.
fn is_written(alloc: Global) -> Result<bool, DeviceFault> {
    let mut sink = MemorySink::new(alloc);
    write_all(&mut sink, &BYTES)?;
    Ok(sink.bytes() == BYTES.as_slice())
}

// The result of writing all bytes to a writer.
fn written_to_writer(alloc: Global) -> Result<(), DeviceFault> {
    let mut sink = WriterSink::new(Vec::new(alloc));
    write_all(&mut sink, &BYTES)
}

#[test]
fn devices_pass_bytes_on(rt: HostRuntime) {
    assert!(rt; is_read(rt.alloc(), u64::MAX) == Ok(true));
    assert!(rt; is_read_of_reader(rt.alloc()) == Ok(true));
    assert!(rt; is_written(rt.alloc()) == Ok(true));
    assert!(rt; written_to_writer(rt.alloc()) == Ok(()));
}

// Whether a sink that fails at once is reported and has taken nothing.
fn is_failing_sink_told(alloc: Global) -> bool {
    let mut sink = Failing::new(MemorySink::new(alloc), 0);
    let written = write_all(&mut sink, &BYTES);
    written == Err(DeviceFault) && sink.device().bytes().is_empty()
}

// The result of writing bytes to a full sink, and then of writing none.
fn written_in_vain() -> (Result<(), DeviceFault>, Result<(), DeviceFault>) {
    let mut sink = FullSink::new();
    let written = write_all(&mut sink, &BYTES);
    (written, write_all(&mut sink, &[]))
}

#[test]
fn a_failing_device_is_told(rt: HostRuntime) {
    for passed in 0..4u64 {
        assert!(rt;
            is_read(rt.alloc(), passed) == Err(ReadFault::Device),
            "{passed}"
        );
    }
    assert!(rt; is_failing_sink_told(rt.alloc()));
    assert!(rt; written_in_vain() == (Err(DeviceFault), Ok(())));
}

// The fault of a run, or of a part.
#[derive(Clone, Copy)]
enum Why {
    Run(CommandFault),
    Hex(HexFault),
    Choice(ChoiceFault),
}

impl Why {
    fn fault(self) -> CommandFault {
        match self {
            Why::Run(fault) => fault,
            Why::Hex(fault) => CommandFault::from(fault),
            Why::Choice(fault) => CommandFault::from(fault),
        }
    }
}

// Faults, their texts, and the numbers of their statuses.
#[rattlefmt::skip]
const FAULTS: [(Why, &str, u8); 10] = [
    (Why::Hex(HexFault::BadWord(3)), "hex fault BadWord at 3", 1),
    (Why::Hex(HexFault::TooMany(2048)), "hex fault TooMany at 2048", 1),
    (Why::Run(CommandFault::NoHarts), "start fault 1 NoHarts", 1),
    (Why::Run(CommandFault::TooManyHarts), "start fault 2 TooManyHarts", 1),
    (Why::Choice(ChoiceFault::BadChoice(0)), "choice fault BadChoice at 0", 1),
    (Why::Choice(ChoiceFault::NoHart(2)), "choice fault NoHart at 2", 1),
    (Why::Run(CommandFault::Read(Input::Choices)), "cannot read", 1),
    (Why::Run(CommandFault::Write), "cannot write -", 1),
    (Why::Choice(ChoiceFault::Memory), "out of memory", 5),
    (Why::Hex(HexFault::Memory), "out of memory", 5),
];

fn has_text(alloc: Global, fault: CommandFault, wanted: &str) -> Result<bool, AllocError> {
    let text = format!(in alloc; "{fault}")?;
    Ok(text.as_str() == wanted)
}

#[test]
fn faults_have_texts(rt: HostRuntime) {
    for (why, wanted, status) in &FAULTS {
        let fault = why.fault();
        assert!(rt; has_text(rt.alloc(), fault, wanted) == Ok(true), "{wanted}");
        assert!(rt; fault.status().code() == *status, "{wanted}");
    }
}

#[test]
fn statuses_have_numbers(rt: HostRuntime) {
    assert!(rt; Status::BadLine.code() == 2);
    assert!(rt; Status::Broken.code() == 4);
}
