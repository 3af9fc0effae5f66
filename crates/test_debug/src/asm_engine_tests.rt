//! What no clause says: worked sources, their files as they load, and devices that fail.
use byte_io::{Failing, FullSink, MemorySink, MemorySource, Status};
use cmd_asm::{AssemblyFault, assembled_file, listing_engine, write_file};
use elf_read::load;
use object_library::{Kind, certify, source};
use std::alloc::Global;

// Sources and their listings.
#[rattlefmt::skip]
const LISTED: [(&str, &str); 4] = [
    ("1: j 1f\n1: beqz a0, 1b\n",
        "jal zero, 0x00010004  # 00010000 0040006f\nbeq a0, zero, 0x00010004  # 00010004 00050063\n"),
    ("la a0, x\n.data\nx: .word 5\n",
        "auipc a0, 0x1  # 00010000 00001517\naddi a0, a0, 0  # 00010004 00050513\n"),
    ("call f\nf:",
        "auipc ra, 0x0  # 00010000 00000097\njalr ra, 8(ra)  # 00010004 008080e7\n"),
    ("", ""),
];

// Whether a source has this listing.
fn has_listing(alloc: Global, text: &str, listing: &str) -> bool {
    let mut sources = [MemorySource::new(text.as_bytes())];
    let mut sink = MemorySink::new(alloc);
    let result = listing_engine(alloc, &mut sources, &mut sink);
    result == Ok(Status::Done) && sink.bytes() == listing.as_bytes()
}

#[test]
fn worked_sources_are_listed(rt: HostRuntime) {
    for (text, listing) in &LISTED {
        assert!(rt; has_listing(rt.alloc(), text, listing), "{text}");
    }
}

// Two sources, how many reads of the second one pass, how their listing ends, and what is written.
struct Pair {
    name: &'static str,
    first: &'static [u8],
    second: &'static [u8],
    passed: u64,
    answer: Result<Status, AssemblyFault>,
    listing: &'static [u8],
}

#[rattlefmt::skip]
const PAIRS: [Pair; 3] = [
    Pair { name: "the second source goes on behind the first", first: b".data\n.word 1\n", second: b"nop\n", passed: 9,
        answer: Ok(Status::Done), listing: b"addi zero, zero, 0  # 00010000 00000013\n" },
    Pair { name: "what is no text is told by its place", first: b"nop", second: b"\xff", passed: 9,
        answer: Err(AssemblyFault::NotText(1)), listing: b"" },
    Pair { name: "a source that fails is told by its place", first: b"nop", second: b"nop", passed: 1,
        answer: Err(AssemblyFault::Read(1)), listing: b"" },
];

// Whether two sources are listed as wanted. Nine reads are ample.
fn is_pair_listed(alloc: Global, pair: &Pair) -> bool {
    let mut sources = [
        Failing::new(MemorySource::new(pair.first), 9),
        Failing::new(MemorySource::new(pair.second), pair.passed),
    ];
    let mut sink = MemorySink::new(alloc);
    let result = listing_engine(alloc, &mut sources, &mut sink);
    result == pair.answer && sink.bytes() == pair.listing
}

#[test]
fn two_sources_are_listed_or_told_by_their_place(rt: HostRuntime) {
    for pair in &PAIRS {
        let name = pair.name;
        assert!(rt; is_pair_listed(rt.alloc(), pair), "{name}");
    }
}

// The file of a source; nothing where it isn't assembled.
fn file_of(alloc: Global, text: &str) -> Option<Vec<u8, Global>> {
    let mut sources = [MemorySource::new(text.as_bytes())];
    assembled_file(alloc, &mut sources).ok()
}

// How long the file of a source is.
fn length_of_file(alloc: Global, text: &str) -> Option<usize> {
    let file = file_of(alloc, text)?;
    Some(file.len())
}

#[test]
fn files_have_their_lengths(rt: HostRuntime) {
    assert!(rt; length_of_file(rt.alloc(), "") == Some(4440));
    assert!(rt; length_of_file(rt.alloc(), source(Kind::Swap)) == Some(8576));
}

// Whether the file of a kind's source is that of an object of the kind; nothing where it doesn't
// load.
fn is_recognized(alloc: Global, of: Kind, kind: Kind) -> Option<bool> {
    let file = file_of(alloc, source(of))?;
    let image = load(alloc, &file).ok()?;
    Some(certify(kind, &image))
}

#[test]
fn each_assembled_object_is_recognized(rt: HostRuntime) {
    for of in Kind::ALL {
        for kind in Kind::ALL {
            assert!(rt; is_recognized(rt.alloc(), of, kind) == Some(of == kind));
        }
    }
}

// How a listing into a full sink ends.
fn listed_in_vain(alloc: Global) -> Result<Status, AssemblyFault> {
    let mut sources = [MemorySource::new(b"nop")];
    listing_engine(alloc, &mut sources, &mut FullSink::new())
}

#[test]
fn a_sink_that_takes_nothing_has_failed(rt: HostRuntime) {
    assert!(rt; listed_in_vain(rt.alloc()) == Err(AssemblyFault::Write));
    assert!(rt; write_file(&mut FullSink::new(), b"bytes") == Err(AssemblyFault::Write));
}
