//! Records a block's runs: writes their lines, or counts their seeds.

ghost use Rattle.std.specs.Prelude.{◌≡◌, ◌+◌, ◌-◌, ◌<◌, ◌^◌, IfOk, IfErr, length, map};
ghost use Rattle.std.specs.Io.KnownBytes.{Appends};
ghost use Rattle.program_open.specs.Answers.{Begins};
ghost use Rattle.program_open.specs.CommandFaults.{IfHalts};
ghost use Rattle.campaign_runs.specs.Ending.{ending_of};
ghost use Rattle.campaign_runs.specs.Runs.{seed_ending};
ghost use Rattle.campaign_runs.specs.Tally.{tally_rows, seeds_in, tally_onto};
ghost use Rattle.cmd_campaign.specs.Lines.{report_entries};
ghost use Rattle.cmd_campaign.specs.Summary.{counted_of};

use crate::lines::push_lines;
use byte_io::{Sink, write_all};
use campaign_runs::{Campaign, Ending, Report, SeedEnd, Tally};
use program_open::CommandFault;
use std::alloc::{AllocError, Allocator};

// A copy of an ending.
fn copied<A: Allocator + Copy>(alloc: A, ending: &Ending<A>) -> Result<Ending<A>, AllocError>
    ensures { IfOk result (λ copy. ending_of copy ≡ ending_of ending.now) }
{
    Ok(Ending {
        outcome: ending.outcome,
        properties: ending.properties,
        hangs: ending.hangs,
        words: String::from_str(alloc, ending.words.as_str())?,
    })
}

/// Counts seeds under the endings of their runs. The only error is out of memory.
pub fn count_ends_of<A: Allocator + Copy>(
    alloc: A,
    tally: &mut Tally<A>,
    ends: &[SeedEnd<A>],
) -> Result<(), AllocError>
    requires { seeds_in (tally_rows tally.old) + length ends.now < 2 ^ 64 }
    ensures { IfOk result (λ _.
        tally_rows tally.new ≡ tally_onto (tally_rows tally.old) (map seed_ending ends.now)) }
{
    'ends: for end in ends {
        let ending = copied(alloc, &end.ending)?;
        tally.add(ending, end.seed)?;
    }
    Ok(())
}

// Writes what a report has of a block's runs while the runs go on.
fn write_lines<A: Allocator + Copy, K: Sink>(
    alloc: A,
    campaign: Campaign,
    ends: &[SeedEnd<A>],
    sink: &mut K,
) -> Result<(), CommandFault>
    requires sink_counts { K.failures sink.old < 2 ^ 64 - 1 }
    ensures written { IfOk result (λ _. Appends (K.held sink.old) (K.held sink.new)
        (report_entries campaign.form campaign.report campaign.expect.exit (map seed_ending ends.now))) }
    ensures begun { IfErr result (λ _. Begins
        (report_entries campaign.form campaign.report campaign.expect.exit (map seed_ending ends.now))
        (K.held sink.old) (K.held sink.new)) }
    ensures fault { IfErr result (λ fault.
        IfHalts fault (K.failures sink.old < K.failures sink.new)) }
    ensures count { IfOk result (λ _. K.failures sink.new ≡ K.failures sink.old) }
{
    let mut text = String::new(alloc);
    let (form, report) = (campaign.form, campaign.report);
    match push_lines(&mut text, form, report, campaign.expect, ends) {
        Ok(()) => {}
        Err(AllocError) => return Err(CommandFault::Memory),
    }
    match write_all(sink, text.as_bytes()) {
        Ok(()) => Ok(()),
        Err(_) => Err(CommandFault::Write),
    }
}

fn count_block<A: Allocator + Copy>(
    alloc: A,
    tally: &mut Tally<A>,
    ends: &[SeedEnd<A>],
) -> Result<(), CommandFault>
    requires { seeds_in (tally_rows tally.old) + length ends.now < 2 ^ 64 }
    ensures counted { IfOk result (λ _.
        tally_rows tally.new ≡ tally_onto (tally_rows tally.old) (map seed_ending ends.now)) }
    ensures fault { IfErr result (λ fault. fault ≡ CommandFault.Memory) }
{
    match count_ends_of(alloc, tally, ends) {
        Ok(()) => Ok(()),
        Err(AllocError) => Err(CommandFault::Memory),
    }
}

/// Records a block's runs for a campaign's report: writes their lines, or counts their seeds. After
/// a fault the sink may have a beginning of the lines.
pub fn record_block<A: Allocator + Copy, K: Sink>(
    alloc: A,
    campaign: Campaign,
    ends: &[SeedEnd<A>],
    tally: &mut Tally<A>,
    sink: &mut K,
) -> Result<(), CommandFault>
    requires fits { seeds_in (tally_rows tally.old) + length ends.now < 2 ^ 64 }
    requires sink_counts { K.failures sink.old < 2 ^ 64 - 1 }
    ensures written { IfOk result (λ _. Appends (K.held sink.old) (K.held sink.new)
        (report_entries campaign.form campaign.report campaign.expect.exit (map seed_ending ends.now))) }
    ensures counted { IfOk result (λ _. tally_rows tally.new
        ≡ tally_onto (tally_rows tally.old) (counted_of campaign.report (map seed_ending ends.now))) }
    ensures begun { IfErr result (λ _. Begins
        (report_entries campaign.form campaign.report campaign.expect.exit (map seed_ending ends.now))
        (K.held sink.old) (K.held sink.new)) }
    ensures fault { IfErr result (λ fault.
        IfHalts fault (K.failures sink.old < K.failures sink.new)) }
    ensures count { IfOk result (λ _. K.failures sink.new ≡ K.failures sink.old) }
{
    match campaign.report {
        Report::Lines | Report::Failures => write_lines(alloc, campaign, ends, sink),
        Report::Summary | Report::Outcomes | Report::Causes => { count_block(alloc, tally, ends) }
    }
}
