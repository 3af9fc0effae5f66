//! Campaigns that a limit ends: they answer what the campaign of the first seeds does.

use crate::plans::{
    Order, Plan, Program, REPORTS, answered, answered_within, campaign_of, program_of,
};
use byte_io::{MemorySource, Status, Unheard};
use campaign_runs::Report;
use cmd_campaign::{Alone, Finished, Limit, until_failure_engine};
use object_library::Kind;
use outcome::Exit;
use std::alloc::Global;
use std::thread::Threads;
use test_images::object_file;

// Ends a campaign once so many blocks of seeds are done.
#[derive(Drop)]
struct Blocks {
    left: u64,
}

impl Limit for Blocks {
    ghost never = { λ s. ⊥ };

    fn is_over(&mut self) -> bool {
        self.left = self.left.saturating_sub(1);
        self.left == 0
    }
}

// Runs so long that a block has the fewest seeds, 64.
const LONG: u32 = 1 << 20;

// Runs of two harts of Swap that must exit, and do.
#[rattlefmt::skip]
const PLAN: Plan = Plan {
    first: 5, count: 300, steps: LONG, order: Order::Usual, rule: Some(Kind::Swap), exit: Exit::Must,
};

// After how many blocks a campaign ends, and how many of its 300 seeds are done then.
const ENDS: [(u64, u64); 5] = [(1, 64), (2, 128), (4, 256), (5, 300), (9, 300)];

// Whether a campaign that ends after so many blocks answers and writes what the campaign of so many
// first seeds does, whatever it reports.
fn are_first_seeds(
    rt: &(impl Threads + Sync),
    alloc: Global,
    program: Program,
    end: (u64, u64),
) -> Option<bool> {
    let (blocks, seeds) = end;
    for report in &REPORTS {
        let limit = &mut Blocks { left: blocks };
        let (ending, sink) = answered_within(rt, alloc, program, PLAN, *report, limit)?;
        let first = Plan {
            count: seeds,
            ..PLAN
        };
        let (wanted, lines) = answered(rt, alloc, program, first, *report)?;
        let finished = ending.ok()?;
        let is_so = wanted == Ok(finished) && finished.seeds == seeds;
        if !is_so || sink.bytes() != lines.bytes() {
            return Some(false);
        }
    }
    Some(true)
}

#[test]
fn limit_ends_a_campaign_behind_a_block(rt: HostRuntime) {
    for end in &ENDS {
        let file = object_file(rt.alloc(), Kind::Swap);
        assert!(rt; file.is_ok());
        if let Ok(file) = file {
            let program = program_of(&file, &[7, 9]);
            assert!(rt; are_first_seeds(&rt, rt.alloc(), program, *end) == Some(true));
        }
    }
}

// What a campaign up to its first failure answers that ends after so many blocks.
fn until_failure(alloc: Global, plan: Plan, blocks: u64) -> Option<(String, Finished)> {
    let file = object_file(alloc, Kind::Swap).ok()?;
    let campaign = campaign_of(plan, Report::Lines)?;
    until_failure_engine(
        &Alone,
        alloc,
        &[7, 9],
        campaign,
        &mut Blocks { left: blocks },
        &mut MemorySource::new(&file),
        &mut Unheard,
    )
    .ok()
}

// Whether it answers so.
fn stops_with(alloc: Global, plan: Plan, blocks: u64, line: &str, finished: Finished) -> bool {
    match until_failure(alloc, plan, blocks) {
        Some((text, found)) => text.as_str() == line && found == finished,
        None => false,
    }
}

// No run has failed so far.
fn none_of(seeds: u64) -> Finished {
    Finished {
        status: Status::Done,
        first_failure: None,
        seeds,
    }
}

#[test]
fn limit_ends_a_search_without_failures(rt: HostRuntime) {
    for (blocks, seeds) in &ENDS {
        let finished = none_of(*seeds);
        assert!(rt; stops_with(rt.alloc(), PLAN, *blocks, "", finished));
    }
}

// Seeds of which one alone fails, in the second block.
#[rattlefmt::skip]
const RARE: Plan = Plan {
    first: 21516, count: 9000, steps: 60, order: Order::Usual, rule: Some(Kind::Swap), exit: Exit::Must,
};

#[test]
fn search_ends_at_its_limit_or_its_first_failure(rt: HostRuntime) {
    assert!(rt; stops_with(rt.alloc(), RARE, 1, "", none_of(4096)));
    let line = "seed 25712 exited 1 faulted 0 running 1 kept\n";
    let finished = Finished {
        status: Status::Faulted,
        first_failure: Some(25712),
        seeds: 8192,
    };
    for blocks in &[2, 9] {
        assert!(rt; stops_with(rt.alloc(), RARE, *blocks, line, finished));
    }
}
