//! What no clause says of `shrink`: worked programs, whose only minimal failing lists were found by
//! hand; failing devices.
use crate::worked::{CROSSED, LOST, NEEDS_SC, OWN_INPUT, TWO_FAULTS, file_of};
use byte_io::{Failing, FullSink, MemorySink, MemorySource, Status};
use cmd_shrink::{Unheard, shrink_engine};
use object_library::Kind;
use outcome::{Exit, Expect};
use program_open::{CommandFault, Input, deliver};
use sched_draw::{Draw, Schedule, list_schedule};
use sched_text::{print_choices, read_choices};
use std::alloc::Global;

// A program, its inputs, what is expected of its runs, a choice text, how many reads of it pass,
// and the text that is left of it or the fault.
struct Row {
    source: &'static str,
    inputs: &'static [u32],
    expect: Expect,
    given: &'static str,
    passed: u64,
    answer: Result<&'static str, CommandFault>,
}

// All reads pass.
const ALL: u64 = u64::MAX;

// No hart may fault, but it may run.
const NO_FAULT: Expect = Expect {
    rule: None,
    exit: Exit::May,
};

// No hart may fault, and each has to exit.
const ALL_EXIT: Expect = Expect {
    rule: None,
    exit: Exit::Must,
};

// Consensus by AMOSWAP is kept.
const AGREED: Expect = Expect {
    rule: Some(Kind::Swap),
    exit: Exit::May,
};

#[rattlefmt::skip]
const ROWS: [Row; 17] = [
    // Hart 0 needs 14 steps to its EBREAK, hart 1 nine to its AMO, all of them between hart 0's
    // load and its store.
    Row { source: LOST, inputs: &[2, 2], expect: NO_FAULT, given: "0*3 1*12 0*14 1*3", passed: ALL,
        answer: Ok("0*3 1*9 0*11\n") },
    // What stands behind the failure goes, and so do marks of steps that are no store-conditionals.
    Row { source: LOST, inputs: &[2, 2], expect: NO_FAULT,
        given: "0! 0*2 1!*5 1*7 0*14 1 0! 1!*3 0!*40", passed: ALL, answer: Ok("0*3 1*9 0*11\n") },
    // The same steps with ten switches. All of hart 1's go together behind hart 0's load, its third
    // step, and before its store; with fewer than two switches no update is lost.
    Row { source: LOST, inputs: &[2, 2], expect: NO_FAULT,
        given: "0 1*2 0*2 1*3 0*2 1 0 1 0*2 1*2 0*6", passed: ALL, answer: Ok("0*3 1*9 0*11\n") },
    // Hart 1's fourth step, its store, stays before hart 0's fourth, its load.
    Row { source: TWO_FAULTS, inputs: &[0, 0], expect: NO_FAULT, given: "1*2 0*2 1*2 0*4",
        passed: ALL, answer: Ok("1*4 0*6\n") },
    // Hart 0 alone would stop after as many steps, but at its EBREAK: hart 1's store is needed for
    // the fault that the given run has.
    Row { source: TWO_FAULTS, inputs: &[0, 0], expect: NO_FAULT, given: "1*6 0*8", passed: ALL,
        answer: Ok("1*4 0*6\n") },
    // The mark of the store-conditional is the one that is needed.
    Row { source: NEEDS_SC, inputs: &[0, 0], expect: NO_FAULT, given: "1 0!*6 1!*9 0!*3",
        passed: ALL, answer: Ok("0*3 0! 0*2\n") },
    // Both harts have to exit for the rule to be broken.
    Row { source: OWN_INPUT, inputs: &[7, 9], expect: AGREED, given: "0!*5 1*6", passed: ALL,
        answer: Ok("0*4 1*4\n") },
    // Each hart has taken the lock that the other wants. Before the last of these steps either
    // could still take both.
    Row { source: CROSSED, inputs: &[0, 0], expect: ALL_EXIT, given: "0*9 1!*20", passed: ALL,
        answer: Ok("0*8 1*8\n") },
    // A fault counts before a hang.
    Row { source: LOST, inputs: &[2, 2], expect: ALL_EXIT, given: "0*3 1*12 0*14", passed: ALL,
        answer: Ok("0*3 1*9 0*11\n") },
    // What doesn't fail, where too few steps are no hang, and what is refused.
    Row { source: LOST, inputs: &[2, 2], expect: NO_FAULT, given: "0*15 1*15", passed: ALL,
        answer: Err(CommandFault::NothingFails) },
    Row { source: LOST, inputs: &[2, 2], expect: NO_FAULT, given: "", passed: ALL,
        answer: Err(CommandFault::NothingFails) },
    Row { source: CROSSED, inputs: &[0, 0], expect: ALL_EXIT, given: "0*8 1*6", passed: ALL,
        answer: Err(CommandFault::NothingFails) },
    Row { source: OWN_INPUT, inputs: &[7, 9], expect: NO_FAULT, given: "0*5 1*6", passed: ALL,
        answer: Err(CommandFault::NothingFails) },
    Row { source: OWN_INPUT, inputs: &[7, 7], expect: AGREED, given: "0*5 1*6", passed: ALL,
        answer: Err(CommandFault::NothingFails) },
    Row { source: LOST, inputs: &[], expect: NO_FAULT, given: "0 2", passed: ALL,
        answer: Err(CommandFault::NoHarts) },
    Row { source: LOST, inputs: &[2, 2], expect: NO_FAULT, given: "0 2", passed: ALL,
        answer: Err(CommandFault::NoHart(2)) },
    Row { source: TWO_FAULTS, inputs: &[0, 0], expect: NO_FAULT, given: "1*6 0*8", passed: 0,
        answer: Err(CommandFault::Read(Input::Choices)) },
];

// What a shrinking of these choices answers, and what it has written; none for want of memory.
fn shrunk(
    alloc: Global,
    source: &str,
    inputs: &[u32],
    expect: Expect,
    choices: &[u8],
    passed: u64,
) -> Option<(Result<Status, CommandFault>, MemorySink<Global>)> {
    let file = file_of(alloc, source)?;
    let mut program = MemorySource::new(&file);
    let mut choices = Failing::new(MemorySource::new(choices), passed);
    let mut sink = MemorySink::new(alloc);
    let answer = shrink_engine(
        alloc,
        inputs,
        expect,
        &[],
        &mut program,
        &mut choices,
        &mut Unheard,
    );
    let ending = deliver(&mut sink, answer);
    Some((ending, sink))
}

// Whether this text is left of a row; or it is refused so, and nothing is written.
fn is_answered(alloc: Global, row: &Row) -> Option<bool> {
    let given = row.given.as_bytes();
    let (ending, sink) = shrunk(alloc, row.source, row.inputs, row.expect, given, row.passed)?;
    Some(match row.answer {
        Ok(left) => ending == Ok(Status::Done) && sink.bytes() == left.as_bytes(),
        Err(fault) => ending == Err(fault) && sink.bytes().is_empty(),
    })
}

#[test]
fn worked_lists_are_shrunk_or_refused(rt: HostRuntime) {
    for (number, row) in ROWS.iter().enumerate() {
        assert!(rt; is_answered(rt.alloc(), row) == Some(true), "{number}");
    }
}

// How a shrinking ends that a full sink should take; none for want of memory.
fn shrunk_in_vain(alloc: Global) -> Option<Result<Status, CommandFault>> {
    let file = file_of(alloc, TWO_FAULTS)?;
    let mut program = MemorySource::new(&file);
    let mut choices = MemorySource::new(b"1*6 0*8");
    let answer = shrink_engine(
        alloc,
        &[0, 0],
        NO_FAULT,
        &[],
        &mut program,
        &mut choices,
        &mut Unheard,
    );
    let ending = deliver(&mut FullSink::new(), answer);
    Some(ending)
}

#[test]
fn a_full_sink_is_told(rt: HostRuntime) {
    let told = Err(CommandFault::Write);
    assert!(rt; shrunk_in_vain(rt.alloc()) == Some(told));
}

// The choices of a seed, as a text.
fn seeded_text(alloc: Global, seed: u64) -> Option<String<Global>> {
    let schedule = Schedule::Seeded {
        seed,
        draw: Draw::usual(),
    };
    let choices = list_schedule(alloc, schedule, 2, 300).ok()?;
    print_choices(alloc, &choices).ok()
}

// How many choices are left of a seed's, where updates are lost under it.
fn left_of(alloc: Global, seed: u64) -> Option<usize> {
    let text = seeded_text(alloc, seed)?;
    let (ending, sink) = shrunk(alloc, LOST, &[2, 2], NO_FAULT, text.as_bytes(), ALL)?;
    if ending.is_err() {
        return None;
    }
    let left = read_choices(alloc, sink.bytes(), 2).ok()?;
    Some(left.len())
}

// The 14 steps of hart 0 to its EBREAK and the nine of hart 1 to its AMO are the least that an
// update is lost in.
#[test]
fn seeds_shrink_to_the_steps_that_lose_an_update(rt: HostRuntime) {
    for seed in [2, 4, 5, 7, 8, 10] {
        assert!(rt; left_of(rt.alloc(), seed) == Some(23), "{seed}");
    }
}
