//! `campaign`: from a program and a range of seeds to the report of their runs.

ghost use Rattle.std.specs.Prelude.{◌≡◌, ◌≢◌, ◌+◌, ◌-◌, ◌^◌, ◌<◌, ◌≤◌, ◌⊎◌, All, Ok, Err, IfOk, IfErr, IfSome};
ghost use Rattle.std.specs.Io.KnownBytes.{Appends, Keeps};
ghost use Rattle.machine.specs.Start.{IsStartable};
ghost use Rattle.cmd_run.specs.Certified.{IsCertified, IsUnbroken};
ghost use Rattle.program_open.specs.Answers.{Begins, BeginsToPrint, Prints};
ghost use Rattle.program_open.specs.CommandFaults.{IfHalts, IfNames, IsRefusal};
ghost use Rattle.campaign_runs.specs.Properties.{no_properties};
ghost use Rattle.campaign_runs.specs.Runs.{all_endings};
ghost use Rattle.campaign_runs.specs.Tally.{tally_rows, tally_of};
ghost use Rattle.cmd_campaign.specs.Answers.{after_image, campaign_answer, campaign_failure};
ghost use Rattle.cmd_campaign.specs.First.{first_endings, first_seeds, ForFirst};
ghost use Rattle.cmd_campaign.specs.Kept.{AllKept};
ghost use Rattle.cmd_campaign.specs.Lines.{report_entries};
ghost use Rattle.cmd_campaign.specs.Status.{campaign_end};
ghost use Rattle.cmd_campaign.specs.Summary.{counted_of, report_text, rows_text, IsSummary};

use crate::findings::{Findings, count_failures};
use crate::limit::{Limit, next_block};
use crate::record::record_block;
use crate::rows::summary_text;
use byte_io::{Progress, Sink, Source, Status, write_all};
use campaign_runs::{Campaign, Form, Runner, Seeds, Tally};
use image::Image;
use machine::Inputs;
use program_open::{CommandFault, ProgramForm, read_image};
use run_hangs::{RunStatus, status_of_hang};
use std::alloc::{AllocError, Allocator};

/// How a campaign ended.
#[derive(Clone, Copy, PartialEq, Eq)]
pub struct Finished {
    /// `Broken` if a rule or a property is broken in some run, else `Faulted` if some run has
    /// failed otherwise than by a hang, else `Done`.
    pub status: Status,
    /// The first seed whose run has failed, if one has.
    pub first_failure: Option<u64>,
    /// How many of its seeds were run, from the first on.
    pub seeds: u64,
}

impl Finished {
    ghost use Rattle.cmd_campaign.specs.Status.{run_status};

    /// How a command ends after these runs: by a hang, if runs have failed by hangs alone.
    pub fn run_status(self) -> RunStatus
        ensures { result ≡ run_status self }
    {
        status_of_hang(self.first_failure.is_some(), self.status)
    }
}

/// Reads the number of seeds, which gives the proof that it fits in 64 bits.
pub(crate) fn see_count(campaign: Campaign)
    ensures { campaign.count < 2 ^ 64 }
{
    let _count = campaign.count;
}

// Does the runs of all seeds, block by block, until the limit is over, and records them. After a
// fault the sink may have a beginning of their lines.
fn run_blocks<A: Allocator + Copy, W: Runner<A>, K: Sink, L: Limit>(
    runner: &W,
    alloc: A,
    image: &Image<A>,
    inputs: &Inputs,
    campaign: Campaign,
    limit: &mut L,
    sink: &mut K,
    progress: &mut impl Progress,
) -> Result<(Tally<A>, Finished), CommandFault>
    requires ready { W.ready runner.now }
    requires fits { campaign.first + campaign.count ≤ 2 ^ 64 }
    requires sink_counts { K.failures sink.old < 2 ^ 64 - 1 }
    ensures written { IfOk result (λ answer. Appends (K.held sink.old) (K.held sink.new)
        (report_entries campaign.form campaign.report campaign.expect.exit
        (first_endings answer.1.seeds campaign image.now inputs.now))) }
    ensures counted { IfOk result (λ answer. tally_rows answer.0
        ≡ tally_of (counted_of campaign.report (first_endings answer.1.seeds campaign image.now inputs.now))) }
    ensures finished { IfOk result (λ answer. answer.1
        ≡ campaign_end campaign.expect.exit (first_endings answer.1.seeds campaign image.now inputs.now)) }
    ensures seeds { IfOk result (λ answer. answer.1.seeds ≤ campaign.count) }
    ensures all { L.never limit.old → IfOk result (λ answer. answer.1.seeds ≡ campaign.count) }
    ensures begun { IfErr result (λ _. Begins
        (report_entries campaign.form campaign.report campaign.expect.exit (all_endings campaign image.now inputs.now))
        (K.held sink.old) (K.held sink.new)) }
    ensures fault { IfErr result (λ fault.
        IfHalts fault (K.failures sink.old < K.failures sink.new)) }
    ensures count { IfOk result (λ _. K.failures sink.new ≡ K.failures sink.old) }
{
    see_count(campaign);
    let mut seeds = Seeds::new(campaign.first, campaign.count);
    let mut tally = Tally::new(alloc);
    let mut found = Findings::NONE;
    let mut done = 0u64;
    let mut bad = 0u64;
    'blocks: while let Some(block) = next_block(&mut seeds, campaign.steps, done, limit) {
        let ends = match runner.run_block(alloc, image, inputs, campaign, block) {
            Ok(ends) => ends,
            Err(AllocError) => return Err(CommandFault::Memory),
        };
        match record_block(alloc, campaign, &ends, &mut tally, sink) {
            Ok(()) => {}
            Err(fault) => return Err(fault),
        }
        found.add(campaign.expect, &ends);
        done += block.count;
        bad = bad.saturating_add(count_failures(campaign.expect, &ends));
        progress.seeds_done(done, bad);
    }
    Ok((tally, found.finished(done)))
}

// Writes a line for each row of a tally. Nothing is written if out of memory.
fn write_rows<A: Allocator + Copy, K: Sink>(
    alloc: A,
    form: Form,
    tally: &Tally<A>,
    sink: &mut K,
) -> Result<(), CommandFault>
    requires sink_counts { K.failures sink.old < 2 ^ 64 - 1 }
    ensures written { IfOk result (λ _.
        Appends (K.held sink.old) (K.held sink.new) (rows_text form (tally_rows tally.now))) }
    ensures begun { IfErr result (λ _.
        Begins (rows_text form (tally_rows tally.now)) (K.held sink.old) (K.held sink.new)) }
    ensures unwritten { IfErr result (λ fault. fault ≢ CommandFault.Write
        → Keeps (K.held sink.old) (K.held sink.new)) }
    ensures fault { IfErr result (λ fault.
        IfHalts fault (K.failures sink.old < K.failures sink.new)) }
{
    let text = match summary_text(alloc, form, tally) {
        Ok(text) => text,
        Err(AllocError) => return Err(CommandFault::Memory),
    };
    match write_all(sink, text.as_bytes()) {
        Ok(()) => Ok(()),
        Err(_) => Err(CommandFault::Write),
    }
}

// Does the runs of the seeds and writes their report. After a fault the sink may have a beginning
// of it.
fn write_report<A: Allocator + Copy, W: Runner<A>, K: Sink, L: Limit>(
    runner: &W,
    alloc: A,
    image: &Image<A>,
    inputs: &Inputs,
    campaign: Campaign,
    limit: &mut L,
    sink: &mut K,
    progress: &mut impl Progress,
) -> Result<Finished, CommandFault>
    requires ready { W.ready runner.now }
    requires fits { campaign.first + campaign.count ≤ 2 ^ 64 }
    requires sink_counts { K.failures sink.old < 2 ^ 64 - 1 }
    ensures written { IfOk result (λ finished. Appends (K.held sink.old) (K.held sink.new)
        (report_text campaign.form campaign.report campaign.expect.exit
        (first_endings finished.seeds campaign image.now inputs.now))) }
    ensures finished { IfOk result (λ finished. finished
        ≡ campaign_end campaign.expect.exit (first_endings finished.seeds campaign image.now inputs.now)) }
    ensures seeds { IfOk result (λ finished. finished.seeds ≤ campaign.count) }
    ensures all { L.never limit.old → IfOk result (λ finished. finished.seeds ≡ campaign.count) }
    ensures begun { IfErr result (λ _. ForFirst (L.never limit.old) campaign.count (λ seeds. Begins
        (report_text campaign.form campaign.report campaign.expect.exit
        (first_endings seeds campaign image.now inputs.now))
        (K.held sink.old) (K.held sink.new))) }
    ensures whole { IsSummary campaign.report → IfErr result (λ fault. fault ≢ CommandFault.Write
        → Keeps (K.held sink.old) (K.held sink.new)) }
    ensures fault { IfErr result (λ fault.
        IfHalts fault (K.failures sink.old < K.failures sink.new)) }
{
    let (tally, finished) = match run_blocks(
        runner, alloc, image, inputs, campaign, limit, sink, progress,
    ) {
        Ok(answer) => answer,
        Err(fault) => return Err(fault),
    };
    match write_rows(alloc, campaign.form, &tally, sink) {
        Ok(()) => Ok(finished),
        Err(fault) => Err(fault),
    }
}

// Writes the report of an image's campaign. Nothing is written if the inputs are invalid.
fn write_campaign<A: Allocator + Copy, W: Runner<A>, K: Sink, L: Limit>(
    runner: &W,
    alloc: A,
    inputs: &[u32],
    campaign: Campaign,
    limit: &mut L,
    image: &Image<A>,
    sink: &mut K,
    progress: &mut impl Progress,
) -> Result<Finished, CommandFault>
    requires ready { W.ready runner.now }
    requires fits { campaign.first + campaign.count ≤ 2 ^ 64 }
    requires sink_counts { K.failures sink.old < 2 ^ 64 - 1 }
    ensures takes { IfOk result (λ _. IsStartable inputs.now) }
    ensures words { IfOk result (λ _. All (λ x. x < 2 ^ 32) inputs.now) }
    ensures done { IfOk result (λ finished.
        Prints (after_image (first_seeds finished.seeds campaign) inputs.now (Ok image.now)) finished.status
        (K.held sink.old) (K.held sink.new)) }
    ensures finished { IfOk result (λ finished. finished
        ≡ campaign_end campaign.expect.exit (first_endings finished.seeds campaign image.now inputs.now)) }
    ensures seeds { IfOk result (λ finished. finished.seeds ≤ campaign.count) }
    ensures all { L.never limit.old → IfOk result (λ finished. finished.seeds ≡ campaign.count) }
    ensures refused { IfErr result (λ fault. IsRefusal fault
        → after_image campaign inputs.now (Ok image.now) ≡ Err fault) }
    ensures unwritten { IfErr result (λ fault. fault ≢ CommandFault.Write → fault ≢ CommandFault.Memory
        → Keeps (K.held sink.old) (K.held sink.new)) }
    ensures whole { IsSummary campaign.report → IfErr result (λ fault. fault ≢ CommandFault.Write
        → Keeps (K.held sink.old) (K.held sink.new)) }
    ensures read { IfErr result (λ fault.
        IfNames fault ⊥ ⊥ ⊥ (K.failures sink.old < K.failures sink.new)) }
    ensures begun { result ≡ Err CommandFault.Write →
        ForFirst (L.never limit.old) campaign.count (λ seeds.
        BeginsToPrint (after_image (first_seeds seeds campaign) inputs.now (Ok image.now))
        (K.held sink.old) (K.held sink.new)) }
    ensures halted { result ≡ Err CommandFault.Memory → Keeps (K.held sink.old) (K.held sink.new)
        ⊎ ForFirst (L.never limit.old) campaign.count (λ seeds.
        BeginsToPrint (after_image (first_seeds seeds campaign) inputs.now (Ok image.now))
        (K.held sink.old) (K.held sink.new)) }
{
    let inputs = match Inputs::new(inputs) {
        Ok(inputs) => inputs,
        Err(fault) => return Err(CommandFault::from(fault)),
    };
    write_report(
        runner, alloc, image, &inputs, campaign, limit, sink, progress,
    )
}

/// `campaign`: reads an ELF file to its end, does a run for each seed until the limit is over, and
/// writes their report: lines while the runs go on, a summary once all are done. The limit is asked
/// after each block of seeds, so that it ends between two of them. Nothing is written if an input
/// is invalid, nor of a summary if out of memory; after any other fault the sink may have a
/// beginning of the report.
pub fn campaign_engine<A: Allocator + Copy, W: Runner<A>, P: Source, K: Sink, L: Limit>(
    runner: &W,
    alloc: A,
    inputs: &[u32],
    campaign: Campaign,
    limit: &mut L,
    program: &mut P,
    sink: &mut K,
    progress: &mut impl Progress,
) -> Result<Finished, CommandFault>
    requires ready { W.ready runner.now }
    requires fits { campaign.first + campaign.count ≤ 2 ^ 64 }
    requires program_counts { P.failures program.old < 2 ^ 64 - 1 }
    requires sink_counts { K.failures sink.old < 2 ^ 64 - 1 }
    // The report of the runs of the first seeds was appended, and this is their status.
    ensures done { IfOk result (λ finished. IfSome (P.left program.old) (λ p.
        Prints (campaign_answer (first_seeds finished.seeds campaign) inputs.now p) finished.status
        (K.held sink.old) (K.held sink.new))) }
    // The first seed among them whose run has failed.
    ensures first { IfOk result (λ finished. IfSome (P.left program.old) (λ p.
        finished.first_failure
        ≡ campaign_failure (first_seeds finished.seeds campaign) inputs.now p)) }
    // They are at most all seeds; without a limit they are all.
    ensures seeds { IfOk result (λ finished. finished.seeds ≤ campaign.count) }
    ensures all { L.never limit.old → IfOk result (λ finished. finished.seeds ≡ campaign.count) }
    // An input is invalid, and nothing is written.
    ensures refused { IfErr result (λ fault. IsRefusal fault
        → IfSome (P.left program.old) (λ p. campaign_answer campaign inputs.now p ≡ Err fault)) }
    ensures unwritten { IfErr result (λ fault. fault ≢ CommandFault.Write → fault ≢ CommandFault.Memory
        → Keeps (K.held sink.old) (K.held sink.new)) }
    // A summary is written only once all of its text is made.
    ensures whole { IsSummary campaign.report → IfErr result (λ fault. fault ≢ CommandFault.Write
        → Keeps (K.held sink.old) (K.held sink.new)) }
    // A device is named only if it failed; the program is the only input.
    ensures read { IfErr result (λ fault. IfNames fault
        (P.failures program.old < P.failures program.new) ⊥ ⊥
        (K.failures sink.old < K.failures sink.new)) }
    // After a failed write, or if a later run is out of memory, the sink has a beginning of the
    // report of the first seeds, without a limit of all.
    ensures begun { result ≡ Err CommandFault.Write → IfSome (P.left program.old) (λ p.
        ForFirst (L.never limit.old) campaign.count (λ seeds.
        BeginsToPrint (campaign_answer (first_seeds seeds campaign) inputs.now p)
        (K.held sink.old) (K.held sink.new))) }
    ensures halted { result ≡ Err CommandFault.Memory → IfSome (P.left program.old) (λ p.
        Keeps (K.held sink.old) (K.held sink.new)
        ⊎ ForFirst (L.never limit.old) campaign.count (λ seeds.
        BeginsToPrint (campaign_answer (first_seeds seeds campaign) inputs.now p)
        (K.held sink.old) (K.held sink.new))) }
    // For a file that is an object, run by as many harts as it is for, each verdict by its kind's
    // rule is `kept`, and the status shows nothing broken if no property is judged.
    ensures certified { IfOk result (λ finished. IfSome (P.left program.old) (λ p.
        (object : IsCertified ProgramForm.Elf p inputs.now campaign.expect.rule)
        → (campaign.properties ≡ no_properties → IsUnbroken campaign.expect.exit finished.status)
        × AllKept (all_endings campaign object.image inputs.now))) }
{
    let image = match read_image(alloc, ProgramForm::Elf, program) {
        Ok(image) => image,
        Err(fault) => return Err(fault),
    };
    write_campaign(
        runner, alloc, inputs, campaign, limit, &image, sink, progress,
    )
}
