//! What no clause says: worked lines and summaries, and summaries beside runs that are counted one
//! by one.
use crate::plain_runs::plain_ending;
use crate::plans::{Order, Plan, Program, answered, program_of};
use byte_io::Status;
use campaign_runs::{Ending, Report};
use cmd_campaign::Finished;
use object_library::Kind;
use outcome::Exit;
use program_open::{ProgramForm, read_program};
use std::alloc::{AllocError, Global};
use std::thread::Threads;
use test_images::object_file;

// A plan, what is reported of an object's runs, and how the campaign ends.
struct Worked {
    kind: Kind,
    inputs: &'static [u32],
    plan: Plan,
    report: Report,
    text: &'static str,
    status: Status,
    first_failure: Option<u64>,
}

// Four harts of LrSc agree under each seed, and three harts of Swap never keep its rule once the
// third has stored. By priorities, a hart of Swap wins in 11 steps, and then the other comes to its
// end in 15: in 26 of them. A hart of Swap alone takes 11, and one of LrSc alone 16, if nothing is
// refused.
#[rattlefmt::skip]
const WORKED: [Worked; 20] = [
    Worked { kind: Kind::LrSc, inputs: &[4, 5, 6, 7],
        plan: Plan { first: 5, count: 2, steps: 600, order: Order::Usual, rule: Some(Kind::LrSc), exit: Exit::May }, report: Report::Lines,
        text: "seed 5 exited 4 faulted 0 running 0 kept\nseed 6 exited 4 faulted 0 running 0 kept\n", status: Status::Done, first_failure: None },
    Worked { kind: Kind::AdoptCommit, inputs: &[4, 5, 6, 7],
        plan: Plan { first: 5, count: 2, steps: 900, order: Order::Usual, rule: Some(Kind::AdoptCommit), exit: Exit::May }, report: Report::Lines,
        text: "seed 5 exited 4 faulted 0 running 0 kept\nseed 6 exited 4 faulted 0 running 0 kept\n", status: Status::Done, first_failure: None },
    Worked { kind: Kind::Rounds, inputs: &[4, 5, 6, 7],
        plan: Plan { first: 5, count: 2, steps: 4000, order: Order::Usual, rule: Some(Kind::Rounds), exit: Exit::May }, report: Report::Lines,
        text: "seed 5 exited 4 faulted 0 running 0 kept\nseed 6 exited 4 faulted 0 running 0 kept\n", status: Status::Done, first_failure: None },
    Worked { kind: Kind::Swap, inputs: &[7, 9, 5],
        plan: Plan { first: 5, count: 2, steps: 300, order: Order::Usual, rule: Some(Kind::Swap), exit: Exit::May }, report: Report::Lines,
        text: "seed 5 exited 2 faulted 1 running 0 broken\nseed 6 exited 2 faulted 1 running 0 broken\n", status: Status::Broken, first_failure: Some(5) },
    Worked { kind: Kind::Swap, inputs: &[7, 9, 5],
        plan: Plan { first: 5, count: 2, steps: 0, order: Order::Usual, rule: Some(Kind::Swap), exit: Exit::May }, report: Report::Lines,
        text: "seed 5 exited 0 faulted 0 running 3 kept\nseed 6 exited 0 faulted 0 running 3 kept\n", status: Status::Done, first_failure: None },
    Worked { kind: Kind::LrSc, inputs: &[4, 5, 6, 7],
        plan: Plan { first: 5, count: 2, steps: 600, order: Order::Usual, rule: Some(Kind::LrSc), exit: Exit::May }, report: Report::Summary,
        text: "seeds 2 first 5 exited 4 faulted 0 running 0 kept\n", status: Status::Done, first_failure: None },
    Worked { kind: Kind::Swap, inputs: &[7, 9, 5],
        plan: Plan { first: 5, count: 2, steps: 300, order: Order::Usual, rule: Some(Kind::Swap), exit: Exit::May }, report: Report::Summary,
        text: "seeds 2 first 5 exited 2 faulted 1 running 0 broken\n", status: Status::Broken, first_failure: Some(5) },
    Worked { kind: Kind::Swap, inputs: &[7, 9, 5],
        plan: Plan { first: 5, count: 2, steps: 300, order: Order::Usual, rule: None, exit: Exit::May }, report: Report::Summary,
        text: "seeds 2 first 5 exited 2 faulted 1 running 0\n", status: Status::Faulted, first_failure: Some(5) },
    Worked { kind: Kind::Swap, inputs: &[7, 9],
        plan: Plan { first: 5, count: 0, steps: 300, order: Order::Usual, rule: None, exit: Exit::May }, report: Report::Outcomes,
        text: "", status: Status::Done, first_failure: None },
    Worked { kind: Kind::Swap, inputs: &[7, 9],
        plan: Plan { first: 5, count: 2, steps: 25, order: Order::Priorities, rule: Some(Kind::Swap), exit: Exit::Must }, report: Report::Summary,
        text: "seeds 2 first 5 exited 1 faulted 0 running 1 kept\n", status: Status::Faulted, first_failure: Some(5) },
    Worked { kind: Kind::Swap, inputs: &[7, 9],
        plan: Plan { first: 5, count: 2, steps: 25, order: Order::Priorities, rule: Some(Kind::Swap), exit: Exit::May }, report: Report::Summary,
        text: "seeds 2 first 5 exited 1 faulted 0 running 1 kept\n", status: Status::Done, first_failure: None },
    Worked { kind: Kind::Swap, inputs: &[7, 9],
        plan: Plan { first: 5, count: 2, steps: 26, order: Order::Priorities, rule: Some(Kind::Swap), exit: Exit::Must }, report: Report::Summary,
        text: "seeds 2 first 5 exited 2 faulted 0 running 0 kept\n", status: Status::Done, first_failure: None },
    Worked { kind: Kind::Swap, inputs: &[7],
        plan: Plan { first: 8, count: 3, steps: 10, order: Order::Bursts, rule: None, exit: Exit::Must }, report: Report::Summary,
        text: "seeds 3 first 8 exited 0 faulted 0 running 1\n", status: Status::Faulted, first_failure: Some(8) },
    Worked { kind: Kind::Swap, inputs: &[7],
        plan: Plan { first: 8, count: 3, steps: 11, order: Order::Bursts, rule: None, exit: Exit::Must }, report: Report::Outcomes,
        text: "seeds 3 first 8 exited 1 faulted 0 running 0 0:a0=00000007 0:a1=00000001\n", status: Status::Done, first_failure: None },
    Worked { kind: Kind::LrSc, inputs: &[6],
        plan: Plan { first: 0, count: 100, steps: 15, order: Order::Never, rule: None, exit: Exit::Must }, report: Report::Summary,
        text: "seeds 100 first 0 exited 0 faulted 0 running 1\n", status: Status::Faulted, first_failure: Some(0) },
    Worked { kind: Kind::LrSc, inputs: &[6],
        plan: Plan { first: 0, count: 100, steps: 16, order: Order::Never, rule: None, exit: Exit::Must }, report: Report::Outcomes,
        text: "seeds 100 first 0 exited 1 faulted 0 running 0 0:a0=00000006 0:a1=00000001\n", status: Status::Done, first_failure: None },
    Worked { kind: Kind::Swap, inputs: &[7, 9],
        plan: Plan { first: 5, count: 2, steps: 25, order: Order::Priorities, rule: None, exit: Exit::May }, report: Report::Outcomes,
        text: "seeds 2 first 5 exited 1 faulted 0 running 1 1:a0=00000009 1:a1=00000001\n", status: Status::Done, first_failure: None },
    Worked { kind: Kind::Swap, inputs: &[7, 9, 5],
        plan: Plan { first: 5, count: 2, steps: 300, order: Order::Usual, rule: Some(Kind::Swap), exit: Exit::May }, report: Report::Causes,
        text: "seeds 2 first 5 exited 2 faulted 1 running 0 broken StoreAccess at 0001000c\n", status: Status::Broken, first_failure: Some(5) },
    Worked { kind: Kind::Swap, inputs: &[7, 9],
        plan: Plan { first: 5, count: 2, steps: 0, order: Order::Usual, rule: Some(Kind::Swap), exit: Exit::Must }, report: Report::Summary,
        text: "seeds 2 first 5 exited 0 faulted 0 running 2 kept\n", status: Status::Faulted, first_failure: Some(5) },
    Worked { kind: Kind::Swap, inputs: &[7, 9, 5],
        plan: Plan { first: 5, count: 2, steps: 300, order: Order::Usual, rule: Some(Kind::Swap), exit: Exit::Must }, report: Report::Summary,
        text: "seeds 2 first 5 exited 2 faulted 1 running 0 broken\n", status: Status::Broken, first_failure: Some(5) },
];

// Whether a campaign reports what is wanted; none where there is no file.
fn is_worked(rt: &(impl Threads + Sync), alloc: Global, row: &Worked) -> Option<bool> {
    let file = object_file(alloc, row.kind).ok()?;
    let program = program_of(&file, row.inputs);
    let (ending, sink) = answered(rt, alloc, program, row.plan, row.report)?;
    let finished = Finished {
        status: row.status,
        first_failure: row.first_failure,
        seeds: row.plan.count,
    };
    Some(ending == Ok(finished) && sink.bytes() == row.text.as_bytes())
}

#[test]
fn each_outcome_has_its_line(rt: HostRuntime) {
    for (number, row) in WORKED.iter().enumerate() {
        assert!(rt; is_worked(&rt, rt.alloc(), row) == Some(true), "{number}");
    }
}

// An outcome as it is printed, with how many runs have it and the seed of the first of them.
#[derive(Drop)]
struct Counted {
    words: String<Global>,
    seeds: u64,
    first: u64,
}

// How a run ended, as a summary prints it.
fn words_of(alloc: Global, ending: &Ending<Global>) -> Result<String<Global>, AllocError> {
    let exited = ending.outcome.exited;
    let faulted = ending.outcome.faulted;
    let running = ending.outcome.running;
    let mut words = String::new(alloc);
    write!(words, "exited {exited} faulted {faulted} running {running}")?;
    words.push_str(ending.words.as_str())?;
    Ok(words)
}

// Counts a run that ended so, by looking it up among those before it.
fn count_run(
    rows: &mut Vec<Counted, Global>,
    words: String<Global>,
    seed: u64,
) -> Result<(), AllocError> {
    match rows
        .iter()
        .position(|row| row.words.as_str() == words.as_str())
    {
        Some(place) => rows[place].seeds = rows[place].seeds.saturating_add(1),
        None => rows.push(Counted {
            words,
            seeds: 1,
            first: seed,
        })?,
    }
    Ok(())
}

// The runs of plain machines over the seeds of a plan, counted one by one; none where the file is
// no program.
fn counts_of(alloc: Global, program: Program, plan: Plan) -> Option<Vec<Counted, Global>> {
    let image = read_program(alloc, ProgramForm::Elf, program.file).ok()?;
    let mut rows: Vec<Counted, Global> = Vec::new(alloc);
    for place in 0..plan.count {
        let seed = plan.first.wrapping_add(place);
        let ending = plain_ending(alloc, &image, program.inputs, plan.order, plan.steps, seed)?;
        let words = words_of(alloc, &ending).ok()?;
        count_run(&mut rows, words, seed).ok()?;
    }
    Some(rows)
}

// The summary of counted runs.
fn text_of(alloc: Global, rows: &[Counted]) -> Result<String<Global>, AllocError> {
    let mut text = String::new(alloc);
    for row in rows {
        let seeds = row.seeds;
        let first = row.first;
        let words = row.words.as_str();
        writeln!(text, "seeds {seeds} first {first} {words}")?;
    }
    Ok(text)
}

// An object of two harts, and the plan of its runs.
struct Histogram {
    kind: Kind,
    plan: Plan,
}

// Several blocks, from the first step on.
#[rattlefmt::skip]
const HISTOGRAMS: [Histogram; 7] = [
    Histogram { kind: Kind::Swap, plan: Plan { first: 0, count: 9000, steps: 12, order: Order::Usual, rule: None, exit: Exit::May } },
    Histogram { kind: Kind::Swap, plan: Plan { first: 7, count: 5000, steps: 22, order: Order::Usual, rule: None, exit: Exit::May } },
    Histogram { kind: Kind::Swap, plan: Plan { first: u64::MAX - 99, count: 100, steps: 40, order: Order::Usual, rule: None, exit: Exit::May } },
    Histogram { kind: Kind::Swap, plan: Plan { first: 5, count: 1, steps: 300, order: Order::Usual, rule: None, exit: Exit::May } },
    Histogram { kind: Kind::LrSc, plan: Plan { first: 3, count: 300, steps: 28, order: Order::Usual, rule: None, exit: Exit::May } },
    Histogram { kind: Kind::LrSc, plan: Plan { first: 3, count: 300, steps: 28, order: Order::Never, rule: None, exit: Exit::May } },
    Histogram { kind: Kind::LrSc, plan: Plan { first: 3, count: 300, steps: 28, order: Order::Bursts, rule: None, exit: Exit::May } },
];

// Whether the summary of the registers is that of plain machines' runs, counted one by one.
fn has_histogram(rt: &(impl Threads + Sync), alloc: Global, row: &Histogram) -> Option<bool> {
    let file = object_file(alloc, row.kind).ok()?;
    let program = program_of(&file, &[7, 9]);
    let rows = counts_of(alloc, program, row.plan)?;
    let wanted = text_of(alloc, &rows).ok()?;
    let (ending, sink) = answered(rt, alloc, program, row.plan, Report::Outcomes)?;
    let finished = Finished {
        status: Status::Done,
        first_failure: None,
        seeds: row.plan.count,
    };
    Some(ending == Ok(finished) && sink.bytes() == wanted.as_bytes())
}

// A histogram of the registers.
#[test]
fn histogram_is_that_of_runs_one_by_one(rt: HostRuntime) {
    for (number, row) in HISTOGRAMS.iter().enumerate() {
        assert!(rt;
            has_histogram(&rt, rt.alloc(), row) == Some(true),
            "{number}"
        );
    }
}
