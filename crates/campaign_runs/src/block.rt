//! The runs of a block of seeds, on threads or on one alone.

ghost use Rattle.std.specs.Prelude.{◌≡◌, ◌+◌, ◌<◌, ◌≤◌, ◌^◌, IfOk, length, map};
ghost use Rattle.std.specs.List.{range_with_len};
ghost use Rattle.machine.specs.State.{state};
ghost use Rattle.campaign_runs.specs.Runs.{seed_ending, ending_from, endings_of};

use crate::campaign::Campaign;
use crate::jobs::Jobs;
use crate::seed_run::{SeedEnd, run_seed};
use crate::seed_runs::{FromStart, SeedRuns};
use crate::seeds::Block;
use image::Image;
use machine::{Inputs, Machine};
use mem_flat::FlatStore;
use rayon::prelude::*;
use std::alloc::{AllocError, Allocator};
use std::thread::Threads;

/// How the runs of a block of seeds end, in order, on threads. One machine is started for all of
/// them. The only error is out of memory.
pub(crate) fn run_block<A: Allocator + Copy + Send + Sync, B: Allocator + Sync>(
    rt: &(impl Threads + Sync),
    jobs: Jobs,
    alloc: A,
    image: &Image<B>,
    inputs: &Inputs,
    campaign: Campaign,
    block: Block,
) -> Result<Vec<SeedEnd<A>, A>, AllocError>
    requires fits { block.first + block.count ≤ 2 ^ 64 }
    ensures { IfOk result (λ ends. map seed_ending ends.items
        ≡ endings_of campaign image.now inputs.now (range_with_len block.first block.count)) }
{
    let start: Machine<FlatStore<A>, A> = Machine::start(alloc, image, inputs)?;
    let runs = FromStart {
        start: &start,
        inputs,
        campaign,
    };
    let ends = run_each(rt, jobs, alloc, &runs, block)?;
    Ok(ends)
}

// Runs seeds. Each thread takes a piece, so no more begin than there are jobs.
fn run_each<S: SeedRuns<A> + Sync, A: Allocator + Copy + Send + Sync>(
    rt: &(impl Threads + Sync),
    jobs: Jobs,
    alloc: A,
    runs: &S,
    block: Block,
) -> Result<Vec<SeedEnd<A>, A>, AllocError>
    requires ready { S.IsReady runs.now }
    requires fits { block.first + block.count ≤ 2 ^ 64 }
    ensures { IfOk result (λ ends. map seed_ending ends.items
        ≡ map (S.endings runs.now) (range_with_len block.first block.count)) }
{
    let first = block.first;
    let ends: Result<Vec<SeedEnd<A>, A>, AllocError> = (0..block.count)
        .into_par_iter()
        .with_min_len(jobs.least_piece(block.count))
        .map(
            |place: u64| -> Result<SeedEnd<A>, AllocError>
                requires { S.IsReady runs.now × (first + place < 2 ^ 64) }
                ensures { IfOk result (λ end. seed_ending end ≡ S.endings runs.entry.now (first + place)) }
            { runs.run(alloc, first + place) },
        )
        .collect(rt, alloc)?;
    ends
}

/// The same on this processor alone.
pub(crate) fn run_block_alone<A: Allocator + Copy, B: Allocator>(
    alloc: A,
    image: &Image<B>,
    inputs: &Inputs,
    campaign: Campaign,
    block: Block,
) -> Result<Vec<SeedEnd<A>, A>, AllocError>
    requires fits { block.first + block.count ≤ 2 ^ 64 }
    ensures { IfOk result (λ ends. map seed_ending ends.items
        ≡ endings_of campaign image.now inputs.now (range_with_len block.first block.count)) }
{
    let start: Machine<FlatStore<A>, A> = Machine::start(alloc, image, inputs)?;
    let ends = run_in_order(alloc, &start, inputs, campaign, block)?;
    Ok(ends)
}

// Runs seeds one after another, each on a copy of a machine.
#[tactic(auto, using(crate::proofs::RunLemmas::one_run_more))]
fn run_in_order<A: Allocator + Copy>(
    alloc: A,
    start: &Machine<FlatStore<A>, A>,
    inputs: &Inputs,
    campaign: Campaign,
    block: Block,
) -> Result<Vec<SeedEnd<A>, A>, AllocError>
    requires there { length (state start.now).harts ≡ length inputs.now }
    requires fits { block.first + block.count ≤ 2 ^ 64 }
    ensures { IfOk result (λ ends. map seed_ending ends.items
        ≡ map (ending_from (state start.now) campaign inputs.now)
        (range_with_len block.first block.count)) }
{
    let mut ends = Vec::new(alloc);
    'seeds: for place in 0..block.count {
        let end = run_seed(alloc, start, inputs, campaign, block.first + place)?;
        ends.push(end)?;
    }
    Ok(ends)
}
