//! What no clause says: failures beside the lines of a campaign, what is refused, devices that
//! fail.
use crate::plain_runs::plain_ending;
use crate::plans::{Order, Plan, Program, REPORTS, answered, campaign_of, program_of};
use byte_io::{Failing, FullSink, MemorySource, Status, Unheard};
use campaign_runs::Report;
use cmd_campaign::{Finished, Jobs, OnThreads, Unlimited, campaign_engine, until_failure_engine};
use image::ElfFault;
use object_library::Kind;
use outcome::Exit;
use program_open::{CommandFault, Input, ProgramForm, read_program};
use std::alloc::{AllocError, Global};
use std::thread::Threads;
use test_images::object_file;

// Which lines of a campaign are bad.
#[derive(Clone, Copy)]
enum Marked {
    // Those that end so.
    With(&'static [u8]),
    // Those that don't.
    Without(&'static [u8]),
}

// Whether a line is bad.
fn is_bad(line: &[u8], marked: Marked) -> bool {
    match marked {
        Marked::With(end) => line.ends_with(end),
        Marked::Without(end) => !line.ends_with(end),
    }
}

// The bad lines of a campaign.
fn bad_lines(alloc: Global, text: &[u8], marked: Marked) -> Result<Vec<u8, Global>, AllocError> {
    let mut lines = Vec::new(alloc);
    for line in text.split_inclusive(|byte: &u8| *byte == b'\n') {
        if is_bad(line, marked) {
            lines.extend_from_slice(line)?;
        }
    }
    Ok(lines)
}

// The inputs of Swap, the plan of its runs, which of their lines are bad, and the status.
struct Bad {
    inputs: &'static [u32],
    plan: Plan,
    marked: Marked,
    status: Status,
}

// With 8 and 12 steps some seeds of three harts of Swap are bad and some are not. With 26 steps
// some of two harts have both exited and some have not.
#[rattlefmt::skip]
const BAD: [Bad; 8] = [
    Bad { inputs: &[7, 9, 5], plan: Plan { first: 3, count: 5000, steps: 8, order: Order::Usual, rule: Some(Kind::Swap), exit: Exit::May },
        marked: Marked::With(b" broken\n"), status: Status::Broken },
    Bad { inputs: &[7, 9, 5], plan: Plan { first: 3, count: 5000, steps: 12, order: Order::Usual, rule: Some(Kind::Swap), exit: Exit::May },
        marked: Marked::With(b" broken\n"), status: Status::Broken },
    Bad { inputs: &[7, 9, 5], plan: Plan { first: 3, count: 5000, steps: 12, order: Order::Usual, rule: None, exit: Exit::May },
        marked: Marked::With(b" faulted 1 running 2\n"), status: Status::Faulted },
    Bad { inputs: &[7, 9, 5], plan: Plan { first: 3, count: 5000, steps: 0, order: Order::Usual, rule: Some(Kind::Swap), exit: Exit::May },
        marked: Marked::With(b" broken\n"), status: Status::Done },
    Bad { inputs: &[7, 9], plan: Plan { first: 3, count: 300, steps: 26, order: Order::Usual, rule: None, exit: Exit::Must },
        marked: Marked::Without(b" running 0\n"), status: Status::Faulted },
    Bad { inputs: &[7, 9], plan: Plan { first: 3, count: 300, steps: 26, order: Order::Usual, rule: Some(Kind::Swap), exit: Exit::Must },
        marked: Marked::Without(b" running 0 kept\n"), status: Status::Faulted },
    Bad { inputs: &[7, 9], plan: Plan { first: 3, count: 300, steps: 30, order: Order::Bursts, rule: None, exit: Exit::Must },
        marked: Marked::Without(b" running 0\n"), status: Status::Faulted },
    Bad { inputs: &[7, 9], plan: Plan { first: 3, count: 100, steps: 26, order: Order::Priorities, rule: None, exit: Exit::Must },
        marked: Marked::Without(b" running 0\n"), status: Status::Done },
];

// Whether failures begin with the line of a seed; where there is none, they are empty.
fn begin_with(alloc: Global, failures: &[u8], seed: Option<u64>) -> Option<bool> {
    let Some(seed) = seed else {
        return Some(failures.is_empty());
    };
    let mut words = String::new(alloc);
    write!(words, "seed {seed} ").ok()?;
    Some(failures.starts_with(words.as_bytes()))
}

// Whether failures are the bad lines of a campaign: not all of them, and none where no run is bad.
fn are_bad_lines(alloc: Global, row: &Bad, lines: &[u8], failures: &[u8]) -> Option<bool> {
    let wanted = bad_lines(alloc, lines, row.marked).ok()?;
    Some(
        failures == wanted.as_slice()
            && wanted.len() < lines.len()
            && wanted.is_empty() == (row.status == Status::Done),
    )
}

// The first seeds of a plan.
fn beginning_of(plan: Plan) -> Plan {
    Plan {
        count: plan.count.min(50),
        ..plan
    }
}

// Whether the campaign of a plan ends so, whatever it reports.
fn end_all_so(
    rt: &(impl Threads + Sync),
    alloc: Global,
    program: Program,
    plan: Plan,
    finished: Finished,
) -> Option<bool> {
    for report in &REPORTS {
        let (ending, _sink) = answered(rt, alloc, program, plan, *report)?;
        if ending != Ok(finished) {
            return Some(false);
        }
    }
    Some(true)
}

// Whether the failures of a plan are the bad lines of its campaign, and the first of them, which is
// one of the first seeds, is told by each report of these.
fn has_bad_lines(rt: &(impl Threads + Sync), alloc: Global, row: &Bad) -> Option<bool> {
    let file = object_file(alloc, Kind::Swap).ok()?;
    let program = program_of(&file, row.inputs);
    let (_told, lines) = answered(rt, alloc, program, row.plan, Report::Lines)?;
    let (ending, sink) = answered(rt, alloc, program, row.plan, Report::Failures)?;
    let finished = ending.ok()?;
    let beginning = beginning_of(row.plan);
    let begun = Finished {
        seeds: beginning.count,
        ..finished
    };
    let are_ended = end_all_so(rt, alloc, program, beginning, begun)?;
    let are_lines = are_bad_lines(alloc, row, lines.bytes(), sink.bytes())?;
    let is_first = begin_with(alloc, sink.bytes(), finished.first_failure)?;
    Some(finished.status == row.status && are_ended && are_lines && is_first)
}

#[test]
fn failures_are_the_bad_lines_of_the_campaign(rt: HostRuntime) {
    for (number, row) in BAD.iter().enumerate() {
        assert!(rt;
            has_bad_lines(&rt, rt.alloc(), row) == Some(true),
            "{number}"
        );
    }
}

// The first line of a text, or nothing.
fn first_line(text: &[u8]) -> &[u8] {
    match text.split_inclusive(|byte: &u8| *byte == b'\n').next() {
        Some(line) => line,
        None => text,
    }
}

// Whether the campaign of a plan up to its first failure gives the first line of the failures, and
// ends as they do.
fn stops_at_the_first(rt: &(impl Threads + Sync), alloc: Global, row: &Bad) -> Option<bool> {
    let file = object_file(alloc, Kind::Swap).ok()?;
    let program = program_of(&file, row.inputs);
    let (ending, sink) = answered(rt, alloc, program, row.plan, Report::Failures)?;
    let campaign = campaign_of(row.plan, Report::Lines)?;
    let mut source = MemorySource::new(&file);
    let (text, finished) = until_failure_engine(
        &OnThreads {
            rt,
            jobs: Jobs::ForProcessors,
        },
        alloc,
        row.inputs,
        campaign,
        &mut Unlimited,
        &mut source,
        &mut Unheard,
    )
    .ok()?;
    let whole = ending.ok()?;
    Some(
        (finished.status, finished.first_failure) == (whole.status, whole.first_failure)
            && text.as_bytes() == first_line(sink.bytes()),
    )
}

#[test]
fn first_failure_stops_the_campaign(rt: HostRuntime) {
    for (number, row) in BAD.iter().enumerate() {
        assert!(rt;
            stops_at_the_first(&rt, rt.alloc(), row) == Some(true),
            "{number}"
        );
    }
}

// Two harts of Swap that must exit, in 28 steps.
#[rattlefmt::skip]
const MUST: Plan = Plan {
    first: 3, count: 100, steps: 28, order: Order::Usual, rule: None, exit: Exit::Must,
};

// The first seed of which a plain machine's run leaves a hart that runs; none where there is none.
fn first_hanging(alloc: Global, file: &[u8]) -> Option<u64> {
    let image = read_program(alloc, ProgramForm::Elf, file).ok()?;
    for place in 0..MUST.count {
        let seed = MUST.first.wrapping_add(place);
        let ending = plain_ending(alloc, &image, &[7, 9], MUST.order, MUST.steps, seed)?;
        if ending.outcome.running > 0 {
            return Some(seed);
        }
    }
    None
}

// Whether the first seed whose run hangs is told, whatever is reported.
fn is_first_hanging_told(rt: &(impl Threads + Sync), alloc: Global) -> Option<bool> {
    let file = object_file(alloc, Kind::Swap).ok()?;
    let seed = first_hanging(alloc, &file)?;
    let finished = Finished {
        status: Status::Faulted,
        first_failure: Some(seed),
        seeds: MUST.count,
    };
    end_all_so(rt, alloc, program_of(&file, &[7, 9]), MUST, finished)
}

#[test]
fn first_run_that_hangs_is_told(rt: HostRuntime) {
    assert!(rt; is_first_hanging_told(&rt, rt.alloc()) == Some(true));
}

// The file of Swap, or what is none.
#[derive(Clone, Copy)]
enum File {
    Swap,
    None,
}

fn file_of(alloc: Global, file: File) -> Result<Vec<u8, Global>, AllocError> {
    match file {
        File::Swap => object_file(alloc, Kind::Swap),
        File::None => Vec::from_slice(alloc, b"no file"),
    }
}

// A file, how many reads of it pass, the inputs, how many steps ten runs take, and the fault.
struct Refused {
    file: File,
    passed: u64,
    inputs: &'static [u32],
    steps: u32,
    fault: CommandFault,
}

// Inputs of no hart and of too many, a file that is none, one that can't be read.
#[rattlefmt::skip]
const REFUSED: [Refused; 4] = [
    Refused { file: File::Swap, passed: u64::MAX, inputs: &[], steps: 10, fault: CommandFault::NoHarts },
    Refused { file: File::Swap, passed: u64::MAX, inputs: &[1; 33], steps: 10, fault: CommandFault::TooManyHarts },
    Refused { file: File::None, passed: u64::MAX, inputs: &[], steps: 10, fault: CommandFault::Elf(ElfFault::Short) },
    Refused { file: File::Swap, passed: 0, inputs: &[7, 9, 5], steps: 300, fault: CommandFault::Read(Input::File) },
];

// Ten runs of so many steps.
fn ten_runs(steps: u32) -> Plan {
    Plan {
        first: 0,
        count: 10,
        steps,
        order: Order::Usual,
        rule: None,
        exit: Exit::May,
    }
}

// Whether each report of a program is refused so, and nothing is written; none where there is no
// memory for the file.
fn are_refused(rt: &(impl Threads + Sync), alloc: Global, row: &Refused) -> Option<bool> {
    let file = file_of(alloc, row.file).ok()?;
    let program = Program {
        file: &file,
        passed: row.passed,
        inputs: row.inputs,
    };
    for report in &REPORTS {
        let (told, sink) = answered(rt, alloc, program, ten_runs(row.steps), *report)?;
        if told != Err(row.fault) || !sink.bytes().is_empty() {
            return Some(false);
        }
    }
    Some(true)
}

#[test]
fn what_is_refused_is_told_and_nothing_written(rt: HostRuntime) {
    for (number, row) in REFUSED.iter().enumerate() {
        assert!(rt; are_refused(&rt, rt.alloc(), row) == Some(true), "{number}");
    }
}

// Whether a program is refused so up to its first failure too.
fn is_refused_until(rt: &(impl Threads + Sync), alloc: Global, row: &Refused) -> Option<bool> {
    let file = file_of(alloc, row.file).ok()?;
    let campaign = campaign_of(ten_runs(row.steps), Report::Lines)?;
    let mut source = Failing::new(MemorySource::new(&file), row.passed);
    let answer = until_failure_engine(
        &OnThreads {
            rt,
            jobs: Jobs::ForProcessors,
        },
        alloc,
        row.inputs,
        campaign,
        &mut Unlimited,
        &mut source,
        &mut Unheard,
    );
    Some(answer.err() == Some(row.fault))
}

#[test]
fn what_is_refused_is_told_until_a_failure(rt: HostRuntime) {
    for (number, row) in REFUSED.iter().enumerate() {
        assert!(rt;
            is_refused_until(&rt, rt.alloc(), row) == Some(true),
            "{number}"
        );
    }
}

// How a report of ten bad runs ends that a full sink should take; none where there is no file.
fn ended_in_vain(
    rt: &(impl Threads + Sync),
    alloc: Global,
    report: Report,
) -> Option<Result<Finished, CommandFault>> {
    let file = object_file(alloc, Kind::Swap).ok()?;
    let campaign = campaign_of(ten_runs(300), report)?;
    let mut source = MemorySource::new(&file);
    let ending = campaign_engine(
        &OnThreads {
            rt,
            jobs: Jobs::ForProcessors,
        },
        alloc,
        &[7, 9, 5],
        campaign,
        &mut Unlimited,
        &mut source,
        &mut FullSink::new(),
        &mut Unheard,
    );
    Some(ending)
}

#[test]
fn full_sinks_are_told(rt: HostRuntime) {
    for (number, report) in REPORTS.iter().enumerate() {
        assert!(rt;
            ended_in_vain(&rt, rt.alloc(), *report) == Some(Err(CommandFault::Write)),
            "{number}"
        );
    }
}
