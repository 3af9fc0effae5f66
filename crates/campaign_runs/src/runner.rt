//! Who does the runs of a block of seeds.

ghost use Rattle.std.specs.Prelude.{◌≡◌, ◌+◌, ◌≤◌, ◌^◌, IfOk, map};
ghost use Rattle.std.specs.List.{range_with_len};
ghost use Rattle.std.specs.Thread.{IsSync};
ghost use Rattle.campaign_runs.specs.Runs.{seed_ending, endings_of};

use crate::block::{run_block, run_block_alone};
use crate::campaign::Campaign;
use crate::jobs::Jobs;
use crate::seed_run::SeedEnd;
use crate::seeds::Block;
use image::Image;
use machine::Inputs;
use std::alloc::{AllocError, Allocator, Global};
use std::thread::Threads;

/// Does the runs of a block of seeds, in memory of this allocator.
pub trait Runner<A: Allocator + Copy> {
    // What doing runs asks for.
    ghost ready: { Self → Type 0 };

    /// How the runs of a block of seeds end, in order. The only error is out of memory.
    fn run_block(
        &self,
        alloc: A,
        image: &Image<A>,
        inputs: &Inputs,
        campaign: Campaign,
        block: Block,
    ) -> Result<Vec<SeedEnd<A>, A>, AllocError>
        requires ready { ready self.now }
        requires fits { block.first + block.count ≤ 2 ^ 64 }
        ensures { IfOk result (λ ends. map seed_ending ends.items
            ≡ endings_of campaign image.now inputs.now (range_with_len block.first block.count)) };
}

/// On threads.
#[derive(Clone, Copy)]
pub struct OnThreads<'a, R> {
    /// Begins the threads.
    pub rt: &'a R,
    /// How many may run at a time.
    pub jobs: Jobs,
}

// Of no other allocator is it known that each thread may free what another has allocated.
impl<'a, R: Threads + Sync> Runner<Global> for OnThreads<'a, R> {
    // Each thread may begin others.
    ghost ready = { λ s. IsSync R.row };

    fn run_block(
        &self,
        alloc: Global,
        image: &Image<Global>,
        inputs: &Inputs,
        campaign: Campaign,
        block: Block,
    ) -> Result<Vec<SeedEnd<Global>, Global>, AllocError> {
        run_block(self.rt, self.jobs, alloc, image, inputs, campaign, block)
    }
}

/// On the caller's thread alone, where no other can be begun.
#[derive(Clone, Copy)]
pub struct Alone;

impl<A: Allocator + Copy> Runner<A> for Alone {
    ghost ready = { λ s. Unit {0} };

    fn run_block(
        &self,
        alloc: A,
        image: &Image<A>,
        inputs: &Inputs,
        campaign: Campaign,
        block: Block,
    ) -> Result<Vec<SeedEnd<A>, A>, AllocError> {
        run_block_alone(alloc, image, inputs, campaign, block)
    }
}
