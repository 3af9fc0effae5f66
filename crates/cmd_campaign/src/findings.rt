//! The failures of a campaign's runs so far.

ghost use Rattle.std.specs.Prelude.{◌≡◌, map};
ghost use Rattle.campaign_runs.specs.Runs.{seed_ending};
ghost use Rattle.cmd_campaign.specs.Status.{any_breaks, any_faults, first_failure};

use crate::engine::Finished;
use campaign_runs::SeedEnd;
use outcome::{Expect, status_by};
use std::alloc::Allocator;

/// The failures of the runs that are done.
#[derive(Clone, Copy, Drop)]
pub(crate) struct Findings {
    /// Whether a rule or a property is broken in one.
    pub(crate) is_broken: bool,
    /// Whether one has failed otherwise than by a hang.
    pub(crate) is_faulted: bool,
    /// The first seed whose run has failed.
    pub(crate) first_failure: Option<u64>,
}

impl Findings {
    ghost use Rattle.std.specs.Prelude.{◌||◌};
    ghost use Rattle.outcome.specs.Expect.{status_by};
    ghost use Rattle.cmd_campaign.specs.Status.{first_or};

    /// No run is done.
    pub(crate) const NONE: Findings = Findings {
        is_broken: false,
        is_faulted: false,
        first_failure: None,
    };

    /// Adds more runs.
    pub(crate) fn add<A: Allocator>(&mut self, expect: Expect, ends: &[SeedEnd<A>])
        ensures broken { self.new.is_broken ≡ (self.old.is_broken || any_breaks (map seed_ending ends.now)) }
        ensures faulted { self.new.is_faulted
            ≡ (self.old.is_faulted || any_faults expect.exit (map seed_ending ends.now)) }
        ensures first { self.new.first_failure
            ≡ first_or self.old.first_failure (first_failure expect.exit (map seed_ending ends.now)) }
    {
        self.is_broken = self.is_broken || any_breaks(ends);
        self.is_faulted = self.is_faulted || any_faults(expect, ends);
        self.first_failure = match self.first_failure {
            None => first_failure(expect, ends),
            Some(seed) => Some(seed),
        };
    }

    /// The end of a campaign of these runs, which are those of so many seeds.
    pub(crate) fn finished(self, seeds: u64) -> Finished
        ensures status { result.status ≡ status_by self.is_broken self.is_faulted }
        ensures first { result.first_failure ≡ self.first_failure }
        ensures seeds { result.seeds ≡ seeds }
    {
        Finished {
            status: status_by(self.is_broken, self.is_faulted),
            first_failure: self.first_failure,
            seeds,
        }
    }
}

// Whether a rule or a property is broken in some run.
fn any_breaks<A: Allocator>(ends: &[SeedEnd<A>]) -> bool
    ensures { result ≡ any_breaks (map seed_ending ends.now) }
{
    'ends: for end in ends {
        if end.ending.breaks() {
            return true;
        }
    }
    false
}

// Whether some run has failed otherwise than by a hang.
fn any_faults<A: Allocator>(expect: Expect, ends: &[SeedEnd<A>]) -> bool
    ensures { result ≡ any_faults expect.exit (map seed_ending ends.now) }
{
    'ends: for end in ends {
        if end.ending.faults(expect) {
            return true;
        }
    }
    false
}

// The first seed whose run has failed.
fn first_failure<A: Allocator>(expect: Expect, ends: &[SeedEnd<A>]) -> Option<u64>
    ensures { result ≡ first_failure expect.exit (map seed_ending ends.now) }
{
    'ends: for end in ends {
        if end.ending.fails(expect) {
            return Some(end.seed);
        }
    }
    None
}

/// Number of runs that have failed, for the progress line.
pub(crate) fn count_failures<A: Allocator>(expect: Expect, ends: &[SeedEnd<A>]) -> u64 {
    let mut count = 0u64;
    'ends: for end in ends {
        count = count.saturating_add(u64::from(end.ending.fails(expect)));
    }
    count
}
