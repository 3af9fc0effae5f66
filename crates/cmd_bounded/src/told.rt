//! What is reported of runs so far.

ghost use Rattle.std.specs.Prelude.{◌≡◌, ◌+◌, ◌<◌, ◌^◌, OnOk};
ghost use Rattle.cmd_campaign.specs.Status.{first_or};
ghost use Rattle.campaign_runs.specs.Runs.{seed_ending};
ghost use Rattle.campaign_runs.specs.Tally.{seeds_in, tally_rows};
ghost use Rattle.cmd_bounded.specs.Told.{failed_number, rows_with};

use crate::bounded::BoundedCampaign;
use crate::lines::push_part;
use campaign_runs::{Report, SeedEnd, Tally};
use cmd_campaign::Finished;
use outcome::{Expect, status_by};
use std::alloc::{AllocError, Allocator};

/// The text and the rows so far, whether a rule is broken in a run, and the first failure.
#[derive(Drop)]
pub(crate) struct Told<A: Allocator> {
    pub(crate) text: String<A>,
    pub(crate) tally: Tally<A>,
    pub(crate) is_broken: bool,
    pub(crate) first_failure: Option<u64>,
    // Number of runs that have failed, for the progress line.
    pub(crate) bad: u64,
}

impl<A: Allocator + Copy> Told<A> {
    ghost use Rattle.std.specs.Prelude.{is_some};
    ghost use Rattle.outcome.specs.Expect.{status_by};
    ghost use Rattle.cmd_bounded.specs.Told.{nothing_told, told_value, told_with};

    /// No run is done.
    pub(crate) fn new(alloc: A) -> Told<A>
        ensures { told_value result ≡ nothing_told }
    {
        Told {
            text: String::new(alloc),
            tally: Tally::new(alloc),
            is_broken: false,
            first_failure: None,
            bad: 0,
        }
    }

    /// Adds a run. The only error is out of memory.
    pub(crate) fn add(
        &mut self,
        campaign: BoundedCampaign,
        end: SeedEnd<A>,
    ) -> Result<(), AllocError>
        requires { seeds_in (tally_rows self.old.tally) + 1 < 2 ^ 64 }
        ensures { OnOk result (told_value self.new
            ≡ told_with campaign.form campaign.report campaign.expect.exit (told_value self.old) (seed_ending end)) }
    {
        let expect = campaign.expect;
        self.is_broken = self.is_broken || end.ending.breaks();
        self.first_failure = first_or(self.first_failure, failed_number(expect, &end));
        self.bad = self.bad.saturating_add(u64::from(end.ending.fails(expect)));
        push_part(&mut self.text, campaign.form, campaign.report, expect, &end)?;
        count_end(&mut self.tally, campaign.report, end)
    }

    /// The end of these runs, of which there are so many.
    pub(crate) fn finished(&self, runs: u64) -> Finished
        ensures status { result.status ≡ status_by self.now.is_broken (is_some self.now.first_failure) }
        ensures first { result.first_failure ≡ self.now.first_failure }
        ensures runs { result.seeds ≡ runs }
    {
        Finished {
            status: status_by(self.is_broken, self.first_failure.is_some()),
            first_failure: self.first_failure,
            seeds: runs,
        }
    }
}

// The first one, or else the second.
fn first_or(first: Option<u64>, other: Option<u64>) -> Option<u64>
    ensures { result ≡ first_or first other }
{
    match first {
        None => other,
        Some(number) => Some(number),
    }
}

// The number of a run that has failed.
fn failed_number<A: Allocator>(expect: Expect, end: &SeedEnd<A>) -> Option<u64>
    ensures { result ≡ failed_number expect.exit (seed_ending end.now) }
{
    if end.ending.fails(expect) {
        Some(end.seed)
    } else {
        None
    }
}

// Counts a run, if the report counts runs.
fn count_end<A: Allocator + Copy>(
    tally: &mut Tally<A>,
    report: Report,
    end: SeedEnd<A>,
) -> Result<(), AllocError>
    requires { seeds_in (tally_rows tally.old) + 1 < 2 ^ 64 }
    ensures { OnOk result (tally_rows tally.new
        ≡ rows_with report (tally_rows tally.old) (seed_ending end)) }
{
    match report {
        Report::Lines | Report::Failures => Ok(()),
        Report::Summary | Report::Outcomes | Report::Causes => tally.add(end.ending, end.seed),
    }
}
