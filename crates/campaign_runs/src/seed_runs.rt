//! What runs seeds: a proof about all threads sees no more of it.

ghost use Rattle.std.specs.Prelude.{◌≡◌, ℕ, IfOk, length};
ghost use Rattle.machine.specs.State.{state};
ghost use Rattle.campaign_runs.specs.Runs.{SeedEnding, seed_ending, ending_from};

use crate::campaign::Campaign;
use crate::seed_run::{SeedEnd, run_seed};
use machine::{Inputs, Machine};
use mem_flat::FlatStore;
use std::alloc::{AllocError, Allocator};

/// What runs seeds.
pub(crate) trait SeedRuns<A: Allocator> {
    /// How the run of each seed ends.
    ghost endings: { Self → ℕ → SeedEnding };

    /// Whether seeds can be run.
    ghost IsReady: { Self → Type 0 };

    /// The end of a seed's run. The only error is out of memory.
    fn run(&self, alloc: A, seed: u64) -> Result<SeedEnd<A>, AllocError>
        requires { IsReady self.now }
        ensures { IfOk result (λ end. seed_ending end ≡ endings self.now seed) };
}

/// The runs of a campaign, each on a copy of one machine.
#[derive(Clone, Copy, Drop)]
pub(crate) struct FromStart<'a, A: Allocator> {
    /// The machine at the program's start.
    pub(crate) start: &'a Machine<FlatStore<A>, A>,
    /// The harts' inputs.
    pub(crate) inputs: &'a Inputs,
    /// What is run of it, and how it is judged.
    pub(crate) campaign: Campaign,
}

impl<'a, A: Allocator + Copy> SeedRuns<A> for FromStart<'a, A> {
    ghost endings = { λ runs seed. ending_from (state runs.start.now) runs.campaign runs.inputs.now seed };

    ghost IsReady = { λ runs. length (state runs.start.now).harts ≡ length runs.inputs.now };

    fn run(&self, alloc: A, seed: u64) -> Result<SeedEnd<A>, AllocError> {
        run_seed(alloc, self.start, self.inputs, self.campaign, seed)
    }
}
