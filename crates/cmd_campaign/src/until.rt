//! `campaign --until-failure`: the first seed whose run fails.

ghost use Rattle.std.specs.Prelude.{◌≡◌, ◌+◌, ◌-◌, ◌^◌, ◌<◌, ◌≤◌, [], Ok, Err, None, Some, IfOk, IfErr, IfSome, MatchOption, map, string_bytes};
ghost use Rattle.cmd_form.specs.declared.form.Form.{Form};
ghost use Rattle.outcome.specs.declared.expect.Exit.{Exit};
ghost use Rattle.program_open.specs.CommandFaults.{IfNames, IsRefusal};
ghost use Rattle.campaign_runs.specs.Runs.{all_endings, seed_ending};
ghost use Rattle.cmd_campaign.specs.Answers.{campaign_failure};
ghost use Rattle.cmd_campaign.specs.First.{first_endings, first_seeds};
ghost use Rattle.cmd_campaign.specs.Status.{first_failure};
ghost use Rattle.cmd_campaign.specs.Until.{first_failing, ended_at, until_answer};

use crate::engine::{Finished, see_count};
use crate::limit::{Limit, next_block};
use crate::lines::push_end;
use byte_io::{Progress, Source, Status};
use campaign_runs::{Campaign, Form, Runner, SeedEnd, Seeds};
use image::Image;
use machine::Inputs;
use outcome::{Expect, status_by};
use program_open::{CommandFault, ProgramForm, read_image};
use std::alloc::{AllocError, Allocator};

// The first run that has failed, if there is one.
fn first_failing<'a, A: Allocator>(expect: Expect, ends: &'a [SeedEnd<A>]) -> Option<&'a SeedEnd<A>>
    ensures { MatchOption result
        (first_failing expect.exit (map seed_ending ends.now) ≡ None)
        (λ end. first_failing expect.exit (map seed_ending ends.now) ≡ Some (seed_ending end.now)) }
{
    'ends: for end in ends {
        if end.ending.fails(expect) {
            return Some(end);
        }
    }
    None
}

// The line of a run that has failed, and the end of a campaign of which so many seeds were run.
fn stop_at<A: Allocator + Copy>(
    alloc: A,
    form: Form,
    expect: Expect,
    seeds: u64,
    end: &SeedEnd<A>,
) -> Result<(String<A>, Finished), AllocError>
    ensures { IfOk result (λ answer. (string_bytes answer.0, answer.1)
        ≡ ended_at form expect.exit seeds (Some (seed_ending end.now))) }
{
    let mut text = String::new(alloc);
    push_end(&mut text, form, end)?;
    let finished = Finished {
        status: status_by(end.ending.breaks(), end.ending.faults(expect)),
        first_failure: Some(end.seed),
        seeds,
    };
    Ok((text, finished))
}

// The end of a campaign of which so many seeds were run, and none of the runs has failed.
fn without_failure(seeds: u64) -> Finished
    ensures { (form : Form) (exit : Exit) → ([], result) ≡ ended_at form exit seeds None }
{
    Finished {
        status: Status::Done,
        first_failure: None,
        seeds,
    }
}

// Does the runs, block by block, until one in a block has failed or the limit is over: its seed is
// the least, however the block's threads take turns.
fn find_failure<A: Allocator + Copy, W: Runner<A>, L: Limit>(
    runner: &W,
    alloc: A,
    image: &Image<A>,
    inputs: &Inputs,
    campaign: Campaign,
    limit: &mut L,
    progress: &mut impl Progress,
) -> Result<(String<A>, Finished), AllocError>
    requires ready { W.ready runner.now }
    requires fits { campaign.first + campaign.count ≤ 2 ^ 64 }
    ensures found { IfOk result (λ answer. (string_bytes answer.0, answer.1)
        ≡ ended_at campaign.form campaign.expect.exit answer.1.seeds
        (first_failing campaign.expect.exit (first_endings answer.1.seeds campaign image.now inputs.now))) }
    ensures seeds { IfOk result (λ answer. answer.1.seeds ≤ campaign.count) }
    ensures first { L.never limit.old → IfOk result (λ answer. answer.1.first_failure
        ≡ first_failure campaign.expect.exit (all_endings campaign image.now inputs.now)) }
{
    see_count(campaign);
    let mut seeds = Seeds::new(campaign.first, campaign.count);
    let mut done = 0u64;
    'blocks: while let Some(block) = next_block(&mut seeds, campaign.steps, done, limit) {
        let ends = runner.run_block(alloc, image, inputs, campaign, block)?;
        done += block.count;
        if let Some(end) = first_failing(campaign.expect, &ends) {
            let answer = stop_at(alloc, campaign.form, campaign.expect, done, end)?;
            return Ok(answer);
        }
        progress.seeds_done(done, 0);
    }
    Ok((String::new(alloc), without_failure(done)))
}

/// `campaign --until-failure`: reads an ELF file to its end, and does a run for each seed, until
/// one has failed or the limit is over, which is asked after each block of seeds. Returns the line
/// of that run with its status, or no text with status 0 if no run fails. The seeds that were run
/// are those of all blocks so far.
#[tactic(auto, unfolding(crate::specs::Until::until_answer, crate::specs::Answers::campaign_failure))]
pub fn until_failure_engine<A: Allocator + Copy, W: Runner<A>, P: Source, L: Limit>(
    runner: &W,
    alloc: A,
    inputs: &[u32],
    campaign: Campaign,
    limit: &mut L,
    program: &mut P,
    progress: &mut impl Progress,
) -> Result<(String<A>, Finished), CommandFault>
    requires ready { W.ready runner.now }
    requires fits { campaign.first + campaign.count ≤ 2 ^ 64 }
    requires program_counts { P.failures program.old < 2 ^ 64 - 1 }
    // Among the first seeds, the first run that has failed, and no other, is reported.
    ensures done { IfOk result (λ answer. IfSome (P.left program.old) (λ p.
        until_answer (first_seeds answer.1.seeds campaign) inputs.now p
        ≡ Ok (string_bytes answer.0, answer.1))) }
    ensures seeds { IfOk result (λ answer. answer.1.seeds ≤ campaign.count) }
    // Without a limit it is the first of all seeds.
    ensures first { L.never limit.old → IfOk result (λ answer. IfSome (P.left program.old) (λ p.
        answer.1.first_failure ≡ campaign_failure campaign inputs.now p)) }
    // An input is invalid.
    ensures refused { IfErr result (λ fault. IsRefusal fault
        → IfSome (P.left program.old) (λ p. until_answer campaign inputs.now p ≡ Err fault)) }
    // The program's device is named only if it failed, and no other is.
    ensures read { IfErr result (λ fault. IfNames fault
        (P.failures program.old < P.failures program.new) ⊥ ⊥ ⊥) }
{
    let image = read_image(alloc, ProgramForm::Elf, program)?;
    let inputs = Inputs::new(inputs)?;
    match find_failure(runner, alloc, &image, &inputs, campaign, limit, progress) {
        Ok(answer) => Ok(answer),
        Err(AllocError) => Err(CommandFault::Memory),
    }
}
