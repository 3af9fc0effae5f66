//! Names, recognition and verdicts: harts made by hand, for each clause of a rule one row that
//! breaks it, and rows that keep all.

use hart_step::{Cause, Hart, HartState};
use image::{Image, Rights, Segment};
use machine::Choice;
use object_library::{KIND_NAMES, Kind, Verdict, certify, judge, make_image, source, table, words};
use std::alloc::{AllocError, Global};
use test_images::bytes_of;

const EXITED: HartState = HartState::Exited(0);

const RUNNING: HartState = HartState::Running;

const FAULTED: HartState = HartState::Faulted(Cause::Break);

/// A hart's state, and its values in `a0` and `a1`.
type End = (HartState, u32, u32);

fn hart((state, value, flag): End) -> Hart {
    let mut registers = [0; 32];
    registers[10] = value;
    registers[11] = flag;
    Hart {
        registers,
        pc: 0,
        state,
    }
}

/// Each of the first two harts is chosen.
#[rattlefmt::skip]
const BOTH: [Choice; 2] = [Choice { hart: 0, refuse: false }, Choice { hart: 1, refuse: false }];

/// What two harts come to, and the verdict.
struct Judged {
    name: &'static str,
    first: End,
    second: End,
    verdict: Verdict,
}

/// The verdict of a kind's rule on what two harts come to.
fn verdict_on(kind: Kind, inputs: &[u32], row: &Judged) -> Verdict {
    judge(kind, inputs, &BOTH, &[hart(row.first), hart(row.second)])
}

/// The rule as Herlihy states it. Hart 2 is never chosen.
#[rattlefmt::skip]
const CONSENSUS: [Judged; 6] = [
    Judged { name: "both decide", first: (EXITED, 9, 1), second: (EXITED, 9, 1), verdict: Verdict::Kept },
    Judged { name: "one runs", first: (EXITED, 9, 1), second: (RUNNING, 3, 3), verdict: Verdict::Kept },
    Judged { name: "not chosen", first: (EXITED, 5, 1), second: (EXITED, 5, 1), verdict: Verdict::Broken },
    Judged { name: "not equal", first: (EXITED, 9, 1), second: (EXITED, 7, 1), verdict: Verdict::Broken },
    Judged { name: "not decided", first: (EXITED, 9, 1), second: (EXITED, 9, 0), verdict: Verdict::Broken },
    Judged { name: "faulted", first: (EXITED, 9, 1), second: (FAULTED, 9, 1), verdict: Verdict::Broken },
];

/// The inputs of three harts.
const INPUTS: [u32; 3] = [7, 9, 5];

/// Whether each rule of consensus gives a row's verdict.
fn is_consensus_judged(row: &Judged) -> bool {
    verdict_on(Kind::Swap, &INPUTS, row) == row.verdict
        && verdict_on(Kind::Add, &INPUTS, row) == row.verdict
        && verdict_on(Kind::LrSc, &INPUTS, row) == row.verdict
}

#[test]
fn each_clause_of_consensus_can_break(rt: HostRuntime) {
    for row in &CONSENSUS {
        assert!(rt; is_consensus_judged(row), "{}", row.name);
    }
}

/// The rule as Gafni states it, with two inputs.
#[rattlefmt::skip]
const TWO_INPUTS: [Judged; 5] = [
    Judged { name: "one commits", first: (EXITED, 7, 1), second: (EXITED, 7, 0), verdict: Verdict::Kept },
    Judged { name: "both adopt", first: (EXITED, 7, 0), second: (EXITED, 9, 0), verdict: Verdict::Kept },
    Judged { name: "not proposed", first: (EXITED, 5, 0), second: (EXITED, 7, 0), verdict: Verdict::Broken },
    Judged { name: "no answer", first: (EXITED, 7, 2), second: (EXITED, 7, 0), verdict: Verdict::Broken },
    Judged { name: "another value", first: (EXITED, 7, 1), second: (EXITED, 9, 0), verdict: Verdict::Broken },
];

/// The same with one.
#[rattlefmt::skip]
const ONE_INPUT: [Judged; 2] = [
    Judged { name: "alike, but adopts", first: (EXITED, 7, 1), second: (EXITED, 7, 0), verdict: Verdict::Broken },
    Judged { name: "alike", first: (EXITED, 7, 1), second: (EXITED, 7, 1), verdict: Verdict::Kept },
];

/// Whether each rule of adopt-commit gives a row's verdict.
fn is_adopt_commit_judged(inputs: &[u32], row: &Judged) -> bool {
    verdict_on(Kind::AdoptCommit, inputs, row) == row.verdict
        && verdict_on(Kind::Rounds, inputs, row) == row.verdict
}

#[test]
fn each_clause_of_adopt_commit_can_break(rt: HostRuntime) {
    for row in &TWO_INPUTS {
        assert!(rt; is_adopt_commit_judged(&[7, 9], row), "{}", row.name);
    }
    for row in &ONE_INPUT {
        assert!(rt; is_adopt_commit_judged(&[7, 7], row), "{}", row.name);
    }
}

#[test]
fn a_name_is_read_back(rt: HostRuntime) {
    for kind in Kind::ALL {
        assert!(rt; Kind::of_name(kind.name()) == Some(kind));
    }
    for name in ["", "Swap", "swaps", "round", "roundss"] {
        assert!(rt; Kind::of_name(name).is_none(), "{name}");
    }
}

/// The names of all kinds as a sentence lists them.
fn listed_names(alloc: Global) -> Result<String<Global>, AllocError> {
    let mut names = String::new(alloc);
    for (place, kind) in Kind::ALL.iter().enumerate() {
        let between = match place {
            0 => "",
            4 => " or ",
            _ => ", ",
        };
        names.push_str(between)?;
        names.push_str(kind.name())?;
    }
    Ok(names)
}

fn are_names_listed(alloc: Global) -> Result<bool, AllocError> {
    Ok(listed_names(alloc)?.as_str() == KIND_NAMES)
}

#[test]
fn the_list_of_names_has_each_kind(rt: HostRuntime) {
    assert!(rt; are_names_listed(rt.alloc()) == Ok(true));
}

/// Whether a kind's image is of another kind, or of its own.
fn is_image_of(alloc: Global, made: Kind, asked: Kind) -> Result<bool, AllocError> {
    let image = make_image(alloc, made)?;
    Ok(certify(asked, &image))
}

#[test]
fn an_image_is_of_one_kind(rt: HostRuntime) {
    for made in Kind::ALL {
        for asked in Kind::ALL {
            assert!(rt; is_image_of(rt.alloc(), made, asked) == Ok(asked == made));
        }
    }
}

/// The first four words of Swap's text, and the rest.
fn parts_of_text() -> ([u32; 4], &'static [u32]) {
    match words(Kind::Swap) {
        [first, second, third, fourth, rest @ ..] => ([*first, *second, *third, *fourth], rest),
        _ => ([0; 4], &[]),
    }
}

/// Swap's image with its text in two segments, at this entry, of these rights, and with so many
/// zeros; and whether it is Swap's.
struct Parted {
    name: &'static str,
    entry: u32,
    rights: u32,
    zeros: u32,
    is_swap: bool,
}

#[rattlefmt::skip]
const PARTED: [Parted; 5] = [
    Parted { name: "parted", entry: 0x0001_0000, rights: 5, zeros: 12, is_swap: true },
    Parted { name: "another entry", entry: 0x0001_0004, rights: 5, zeros: 12, is_swap: false },
    Parted { name: "text may be written", entry: 0x0001_0000, rights: 7, zeros: 12, is_swap: false },
    Parted { name: "a word more", entry: 0x0001_0000, rights: 5, zeros: 16, is_swap: false },
    Parted { name: "a word less", entry: 0x0001_0000, rights: 5, zeros: 8, is_swap: false },
];

fn segments_of(alloc: Global, row: &Parted) -> Result<Vec<Segment<Global>>, AllocError> {
    let (front, rest) = parts_of_text();
    let mut segments = Vec::new(alloc);
    segments.push(Segment {
        base: 0x0001_1000,
        size: row.zeros,
        rights: Rights::of_flags(6),
        bytes: Vec::new(alloc),
    })?;
    segments.push(Segment {
        base: 0x0001_0010,
        size: 44,
        rights: Rights::of_flags(row.rights),
        bytes: bytes_of(alloc, rest)?,
    })?;
    segments.push(Segment {
        base: 0x0001_0000,
        size: 16,
        rights: Rights::of_flags(5),
        bytes: bytes_of(alloc, &front)?,
    })?;
    Ok(segments)
}

/// Whether a row's image is Swap's; none where it is not made.
fn is_certified(alloc: Global, row: &Parted) -> Option<bool> {
    let segments = segments_of(alloc, row).ok()?;
    let image = Image::new(alloc, row.entry, segments).ok()?;
    Some(certify(Kind::Swap, &image))
}

#[test]
fn only_what_is_seen_counts(rt: HostRuntime) {
    for row in &PARTED {
        assert!(rt;
            is_certified(rt.alloc(), row) == Some(row.is_swap),
            "{}",
            row.name
        );
    }
}

/// How many lines a text has besides its instructions: `.globl`, `.bss`, `.zero` and the labels.
const OTHER_LINES: [(Kind, usize); 5] = [
    (Kind::Swap, 5),
    (Kind::Add, 5),
    (Kind::LrSc, 6),
    (Kind::AdoptCommit, 9),
    (Kind::Rounds, 11),
];

/// Whether a kind's table and its text have as many instructions as it has words.
fn has_lines(alloc: Global, kind: Kind, others: usize) -> Result<bool, AllocError> {
    let instructions = table(alloc, kind)?.len();
    Ok(
        instructions == words(kind).len()
            && source(kind).lines().count() == instructions.saturating_add(others),
    )
}

#[test]
fn a_text_has_a_line_for_each_instruction(rt: HostRuntime) {
    for (kind, others) in &OTHER_LINES {
        assert!(rt;
            has_lines(rt.alloc(), *kind, *others) == Ok(true),
            "{others}"
        );
    }
}
