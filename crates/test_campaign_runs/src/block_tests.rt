//! What no clause says: that memory is found, and that the runs of threads are those of plain
//! machines.
ghost use Rattle.std.specs.Prelude.{◌≤◌};

use crate::plain_runs::plain_ending;
use crate::plans::{Order, Plan, answered, campaign_of, program_of};
use campaign_runs::{Alone, Block, Jobs, OnThreads, Report, Runner, SeedEnd, Seeds};
use image::Image;
use machine::Inputs;
use object_library::Kind;
use outcome::Exit;
use program_open::CommandFault;
use std::alloc::{AllocError, Global};
use std::thread::Threads;
use test_images::{CONDITIONAL, object_file, writable_program};

// Runs of so many steps, told apart by what harts left.
fn plan_of(first: u64, count: u64, steps: u32) -> Plan {
    Plan {
        first,
        count,
        steps,
        order: Order::Usual,
        rule: None,
        exit: Exit::May,
    }
}

// How the runs of a plan end, as one block.
fn ends_of<W: Runner<Global>>(
    runner: &W,
    alloc: Global,
    inputs: &[u32],
    plan: Plan,
) -> Result<Vec<SeedEnd<Global>, Global>, AllocError>
    requires ready { W.ready runner.now }
{
    let image = writable_program(alloc, &CONDITIONAL)?;
    let Ok(inputs) = Inputs::new(inputs) else {
        return Err(AllocError);
    };
    let Some(campaign) = campaign_of(plan, Report::Outcomes) else {
        return Err(AllocError);
    };
    let block = Block {
        first: campaign.first,
        count: campaign.count,
    };
    runner.run_block(alloc, &image, &inputs, campaign, block)
}

// The inputs of four harts.
const FOUR: [u32; 4] = [7, 9, 11, 13];

// The first of the last 3000 seeds there are.
const FIRST: u64 = u64::MAX - 2999;

// Whether a run of 30 steps is that of a seed by a plain machine.
fn is_plain(alloc: Global, image: &Image<Global>, seed: u64, end: &SeedEnd<Global>) -> bool {
    match plain_ending(alloc, image, &FOUR, Order::Usual, 30, seed) {
        Some(ending) => end.seed == seed && end.ending == ending,
        None => false,
    }
}

// How many runs are those of the seeds from the first on by plain machines, up to the first that is
// not.
fn count_plain(alloc: Global, image: &Image<Global>, ends: &[SeedEnd<Global>]) -> u64 {
    let mut plain = 0u64;
    for end in ends {
        if !is_plain(alloc, image, FIRST.wrapping_add(plain), end) {
            return plain;
        }
        plain = plain.wrapping_add(1);
    }
    plain
}

// How many runs there are of the last seeds, and how many of them are those of plain machines.
fn count_runs<W: Runner<Global>>(runner: &W, alloc: Global) -> Result<(usize, u64), AllocError>
    requires ready { W.ready runner.now }
{
    let ends = ends_of(runner, alloc, &FOUR, plan_of(FIRST, 3000, 30))?;
    let image = writable_program(alloc, &CONDITIONAL)?;
    Ok((ends.len(), count_plain(alloc, &image, ends.as_slice())))
}

// None is as one, and 64 are more than take part.
const JOBS: [Jobs; 5] = [
    Jobs::ForProcessors,
    Jobs::AtMost(0),
    Jobs::AtMost(1),
    Jobs::AtMost(3),
    Jobs::AtMost(64),
];

#[test]
fn threads_run_what_plain_machines_run(rt: HostRuntime) {
    for jobs in &JOBS {
        let runner = OnThreads {
            rt: &rt,
            jobs: *jobs,
        };
        assert!(rt; count_runs(&runner, rt.alloc()) == Ok((3000, 3000)));
    }
}

#[test]
fn one_thread_runs_what_plain_machines_run(rt: HostRuntime) {
    assert!(rt; count_runs(&Alone, rt.alloc()) == Ok((3000, 3000)));
}

// Whether a run has left two harts running.
fn is_at_start(end: &SeedEnd<Global>) -> bool {
    end.ending.outcome.running == 2 && end.ending.words.is_empty()
}

// Whether the runs of two seeds without a step are at the start.
fn are_at_start<W: Runner<Global>>(runner: &W, alloc: Global) -> Result<bool, AllocError>
    requires ready { W.ready runner.now }
{
    let ends = ends_of(runner, alloc, &[7, 9], plan_of(5, 2, 0))?;
    match ends.as_slice() {
        [one, other] => Ok(is_at_start(one) && is_at_start(other)),
        _ => Ok(false),
    }
}

#[test]
fn no_step_leaves_the_start(rt: HostRuntime) {
    assert!(rt;
        are_at_start(
            &OnThreads {
                rt: &rt,
                jobs: Jobs::ForProcessors
            },
            rt.alloc()
        ) == Ok(true)
    );
    assert!(rt; are_at_start(&Alone, rt.alloc()) == Ok(true));
}

// How many lines a campaign with some inputs writes; none where there is no memory for its file.
fn count_of<R: Threads + Sync>(
    rt: &R,
    alloc: Global,
    inputs: &[u32],
    count: u64,
) -> Option<Result<usize, CommandFault>> {
    let file = object_file(alloc, Kind::LrSc).ok()?;
    let program = program_of(&file, inputs);
    let (ending, sink) = answered(rt, alloc, program, plan_of(0, count, 9), Report::Lines)?;
    let lines = sink.bytes().split_inclusive(|byte: &u8| *byte == b'\n');
    Some(ending.map(|_| lines.count()))
}

// Inputs, how many seeds are run, and how many runs there are.
struct Counted {
    inputs: &'static [u32],
    count: u64,
    runs: Result<usize, CommandFault>,
}

// The inputs are checked also where no seed is run.
#[rattlefmt::skip]
const COUNTED: [Counted; 6] = [
    Counted { inputs: &[], count: 0, runs: Err(CommandFault::NoHarts) },
    Counted { inputs: &[0; 100], count: 0, runs: Err(CommandFault::TooManyHarts) },
    Counted { inputs: &[7], count: 0, runs: Ok(0) },
    Counted { inputs: &[], count: 3, runs: Err(CommandFault::NoHarts) },
    Counted { inputs: &[0; 100], count: 3, runs: Err(CommandFault::TooManyHarts) },
    Counted { inputs: &[7], count: 3, runs: Ok(3) },
];

#[test]
fn inputs_are_checked_first(rt: HostRuntime) {
    for row in &COUNTED {
        assert!(rt;
            count_of(&rt, rt.alloc(), row.inputs, row.count) == Some(row.runs),
            "{} inputs",
            row.inputs.len()
        );
    }
}

// Whether two runs are of the same seed and end in the same way.
fn is_same_run(one: &SeedEnd<Global>, other: &SeedEnd<Global>) -> bool {
    one.seed == other.seed && one.ending == other.ending
}

// What is left of runs behind those of a block; none where the block has others.
fn left_behind<'a>(
    runs: &'a [SeedEnd<Global>],
    block: &[SeedEnd<Global>],
) -> Option<&'a [SeedEnd<Global>]> {
    let mut left = runs;
    for run in block {
        let (wanted, rest) = left.split_first()?;
        if !is_same_run(run, wanted) {
            return None;
        }
        left = rest;
    }
    Some(left)
}

// Whether the blocks of a campaign of so many seeds are the campaign as a whole; none where memory
// is refused.
fn are_blocks_whole<W: Runner<Global>>(runner: &W, alloc: Global, count: u64) -> Option<bool>
    requires ready { W.ready runner.now }
    requires few { count ≤ 5000 }
{
    let image = writable_program(alloc, &CONDITIONAL).ok()?;
    let inputs = Inputs::new(&[7, 9]).ok()?;
    let plan = plan_of(5, count, 8);
    let campaign = campaign_of(plan, Report::Outcomes)?;
    let whole = ends_of(runner, alloc, inputs.words(), plan).ok()?;
    let mut left = whole.as_slice();
    let mut seeds = Seeds::new(5, count);
    for _ in 0..10 {
        let Some(block) = seeds.next_block(8) else {
            break;
        };
        let ends = runner
            .run_block(alloc, &image, &inputs, campaign, block)
            .ok()?;
        left = left_behind(left, ends.as_slice())?;
    }
    Some(left.is_empty())
}

#[test]
fn blocks_are_the_whole(rt: HostRuntime) {
    for count in [0, 1, 63, 64, 65, 5000] {
        assert!(rt;
            are_blocks_whole(
                &OnThreads {
                    rt: &rt,
                    jobs: Jobs::ForProcessors
                },
                rt.alloc(),
                count
            ) == Some(true),
            "{count} seeds"
        );
    }
}
