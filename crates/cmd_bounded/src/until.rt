//! `campaign --preemptions --until-failure`: the first schedule whose run fails.

ghost use Rattle.std.specs.Prelude.{◌≡◌, ◌+◌, ◌-◌, ◌^◌, ◌<◌, ◌++◌, Ok, Err, IfOk, IfErr, IfSome, drop, length, string_bytes};
ghost use Rattle.machine.specs.Machine.{world};
ghost use Rattle.machine.specs.Start.{started};
ghost use Rattle.campaign_bounded.specs.Walk.{schedules_left};
ghost use Rattle.program_open.specs.CommandFaults.{IfNames, IsRefusal};
ghost use Rattle.cmd_bounded.specs.Runs.{every_schedule};
ghost use Rattle.cmd_bounded.specs.Until.{bounded_until, found_end, found_ending, found_entry, until_range, FindsFirst};

use crate::bounded::BoundedCampaign;
use crate::covered::push_covered;
use crate::engine::walk_of;
use crate::lines::push_schedule;
use crate::run::next_end;
use byte_io::{Progress, Source, Status};
use campaign_bounded::Schedules;
use campaign_runs::{Form, SeedEnd};
use cmd_campaign::Finished;
use image::Image;
use machine::{Inputs, Machine};
use mem_flat::FlatStore;
use mem_store::FromImage;
use outcome::{Expect, status_by};
use program_open::{CommandFault, ProgramForm, read_image};
use std::alloc::{AllocError, Allocator};

/// How many runs are done, and the last of them, if it has failed.
#[derive(Drop)]
struct Found<A: Allocator> {
    count: u64,
    failing: Option<SeedEnd<A>>,
}

// Does the runs over the next schedules of a walk up to the first that has failed. The only error is
// out of memory.
fn find_failure<S: FromImage<A>, A: Allocator + Copy>(
    alloc: A,
    walk: &mut Schedules<S, A>,
    start: &Machine<S, A>,
    inputs: &Inputs,
    campaign: BoundedCampaign,
    progress: &mut impl Progress,
) -> Result<Found<A>, AllocError>
    requires fits { campaign.first + campaign.count < 2 ^ 64 }
    ensures { IfOk result (λ found. FindsFirst campaign (world S.memory start.now) inputs.now
        (schedules_left S.memory walk.old) found.count (found_ending found.failing)
        (schedules_left S.memory walk.new)) }
{
    'schedules: for done in 0..campaign.count {
        let Some(end) = next_end(alloc, walk, start, inputs, campaign, campaign.first + done)?
        else {
            return Ok(Found {
                count: done,
                failing: None,
            });
        };
        if end.ending.fails(campaign.expect) {
            return Ok(Found {
                count: done + 1,
                failing: Some(end),
            });
        }
        progress.seeds_done(done + 1, 0);
    }
    Ok(Found {
        count: campaign.count,
        failing: None,
    })
}

// Appends the line of a run, if there is one.
fn push_found<A: Allocator>(
    text: &mut String<A>,
    form: Form,
    found: &Option<SeedEnd<A>>,
) -> Result<(), AllocError>
    ensures { IfOk result (λ _. string_bytes text.new
        ≡ string_bytes text.old ++ found_entry form (found_ending found.now)) }
{
    match found {
        None => Ok(()),
        Some(end) => push_schedule(text, form, end),
    }
}

// After so many runs, the status and the number of the first that has failed, if one has.
fn finished_at<A: Allocator>(expect: Expect, count: u64, found: &Option<SeedEnd<A>>) -> Finished
    ensures { result ≡ found_end expect.exit count (found_ending found.now) }
{
    match found {
        None => Finished {
            status: Status::Done,
            first_failure: None,
            seeds: count,
        },
        Some(end) => Finished {
            status: status_by(end.ending.breaks(), end.ending.faults(expect)),
            first_failure: Some(end.seed),
            seeds: count,
        },
    }
}

// The report of the runs over a range of a walk's schedules up to the first that has failed.
#[tactic(auto, unfolding(crate::specs::Until::until_range))]
fn report_until<S: FromImage<A>, A: Allocator + Copy>(
    alloc: A,
    walk: &mut Schedules<S, A>,
    start: &Machine<S, A>,
    inputs: &Inputs,
    campaign: BoundedCampaign,
    progress: &mut impl Progress,
) -> Result<(String<A>, Finished), AllocError>
    requires fits { campaign.first + campaign.count < 2 ^ 64 }
    ensures { IfOk result (λ answer. (string_bytes answer.0, answer.1)
        ≡ until_range campaign (world S.memory start.now) inputs.now (schedules_left S.memory walk.old)) }
{
    let found = find_failure(alloc, walk, start, inputs, campaign, progress)?;
    let mut text = String::new(alloc);
    push_found(&mut text, campaign.form, &found.failing)?;
    push_covered(alloc, &mut text, walk, campaign, found.count)?;
    let finished = finished_at(campaign.expect, found.count, &found.failing);
    Ok((text, finished))
}

// The same of an image.
fn until_of_image<A: Allocator + Copy>(
    alloc: A,
    image: &Image<A>,
    inputs: &Inputs,
    campaign: BoundedCampaign,
    progress: &mut impl Progress,
) -> Result<(String<A>, Finished), AllocError>
    requires fits { campaign.first + campaign.count < 2 ^ 64 }
    ensures { IfOk result (λ answer. (string_bytes answer.0, answer.1)
        ≡ until_range campaign (started image.now inputs.now) inputs.now
        (drop campaign.first (every_schedule campaign image.now inputs.now))) }
{
    let start: Machine<FlatStore<A>, A> = Machine::start(alloc, image, inputs)?;
    let mut walk = walk_of(alloc, image, inputs, campaign)?;
    walk.skip(alloc, campaign.first)?;
    let answer = report_until(alloc, &mut walk, &start, inputs, campaign, progress)?;
    Ok(answer)
}

/// `campaign --preemptions --until-failure`: reads an ELF file to its end, and does the run over each
/// schedule of a range, until one has failed. Returns the line of that run, if there is one, with a
/// line that says what is covered, and its status.
#[tactic(auto, unfolding(crate::specs::Until::bounded_until))]
pub fn bounded_until_engine<A: Allocator + Copy, P: Source>(
    alloc: A,
    inputs: &[u32],
    campaign: BoundedCampaign,
    program: &mut P,
    progress: &mut impl Progress,
) -> Result<(String<A>, Finished), CommandFault>
    requires fits { campaign.first + campaign.count < 2 ^ 64 }
    requires program_counts { P.failures program.old < 2 ^ 64 - 1 }
    // The first run that has failed, what is covered, and their end.
    ensures done { IfOk result (λ answer. IfSome (P.left program.old) (λ p.
        bounded_until campaign inputs.now p ≡ Ok (string_bytes answer.0, answer.1))) }
    // An input is invalid.
    ensures refused { IfErr result (λ fault. IsRefusal fault
        → IfSome (P.left program.old) (λ p. bounded_until campaign inputs.now p ≡ Err fault)) }
    // The program's device is named only if it failed, and no other is.
    ensures read { IfErr result (λ fault. IfNames fault
        (P.failures program.old < P.failures program.new) ⊥ ⊥ ⊥) }
{
    let image = read_image(alloc, ProgramForm::Elf, program)?;
    let inputs = Inputs::new(inputs)?;
    match until_of_image(alloc, &image, &inputs, campaign, progress) {
        Ok(answer) => Ok(answer),
        Err(AllocError) => Err(CommandFault::Memory),
    }
}
