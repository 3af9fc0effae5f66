//! `campaign --preemptions`: from a program and bounds to the report of the runs over its
//! schedules.

ghost use Rattle.std.specs.Prelude.{◌≡◌, ◌+◌, ◌-◌, ◌^◌, ◌<◌, Ok, Err, IfOk, IfErr, IfSome, drop, length, string_bytes};
ghost use Rattle.machine.specs.Machine.{world};
ghost use Rattle.machine.specs.Start.{started};
ghost use Rattle.campaign_bounded.specs.Walk.{schedules_left};
ghost use Rattle.program_open.specs.CommandFaults.{IfNames, IsRefusal};
ghost use Rattle.cmd_bounded.specs.Answers.{bounded_answer, reported_range};
ghost use Rattle.cmd_bounded.specs.Runs.{every_schedule};

use crate::bounded::BoundedCampaign;
use crate::covered::push_covered;
use crate::ranged::tell_range;
use crate::rows::push_rows;
use crate::told::Told;
use byte_io::{Progress, Source};
use campaign_bounded::Schedules;
use cmd_campaign::Finished;
use image::Image;
use machine::{Inputs, Machine};
use mem_flat::FlatStore;
use mem_store::FromImage;
use program_open::{CommandFault, ProgramForm, read_image};
use std::alloc::{AllocError, Allocator};

/// A walk through every schedule of an image. The only error is out of memory.
pub(crate) fn walk_of<S: FromImage<A>, A: Allocator + Copy>(
    alloc: A,
    image: &Image<A>,
    inputs: &Inputs,
    campaign: BoundedCampaign,
) -> Result<Schedules<S, A>, AllocError>
    ensures { IfOk result (λ walk.
        schedules_left S.memory walk ≡ every_schedule campaign image.now inputs.now) }
{
    let start: Machine<S, A> = Machine::start(alloc, image, inputs)?;
    let walk = Schedules::new(
        alloc,
        start,
        inputs.harts(),
        campaign.steps,
        campaign.preemptions,
    )?;
    Ok(walk)
}

// The report of the runs over a range of a walk's schedules, and their end.
fn report_range<S: FromImage<A>, A: Allocator + Copy>(
    alloc: A,
    walk: &mut Schedules<S, A>,
    start: &Machine<S, A>,
    inputs: &Inputs,
    campaign: BoundedCampaign,
    progress: &mut impl Progress,
) -> Result<(String<A>, Finished), AllocError>
    requires fits { campaign.first + campaign.count < 2 ^ 64 }
    ensures { IfOk result (λ answer. (string_bytes answer.0, answer.1)
        ≡ reported_range campaign (world S.memory start.now) inputs.now (schedules_left S.memory walk.old)) }
{
    let mut told = Told::new(alloc);
    let count = tell_range(alloc, walk, start, inputs, campaign, &mut told, progress)?;
    let finished = told.finished(count);
    let mut text = told.text;
    push_rows(&mut text, campaign.form, &told.tally)?;
    push_covered(alloc, &mut text, walk, campaign, count)?;
    Ok((text, finished))
}

// The same of an image.
fn report_image<A: Allocator + Copy>(
    alloc: A,
    image: &Image<A>,
    inputs: &Inputs,
    campaign: BoundedCampaign,
    progress: &mut impl Progress,
) -> Result<(String<A>, Finished), AllocError>
    requires fits { campaign.first + campaign.count < 2 ^ 64 }
    ensures { IfOk result (λ answer. (string_bytes answer.0, answer.1)
        ≡ reported_range campaign (started image.now inputs.now) inputs.now
        (drop campaign.first (every_schedule campaign image.now inputs.now))) }
{
    let start: Machine<FlatStore<A>, A> = Machine::start(alloc, image, inputs)?;
    let mut walk = walk_of(alloc, image, inputs, campaign)?;
    walk.skip(alloc, campaign.first)?;
    let answer = report_range(alloc, &mut walk, &start, inputs, campaign, progress)?;
    Ok(answer)
}

/// `campaign --preemptions`: reads an ELF file to its end, and does the run over each schedule of a
/// range. Returns the report of these runs with a line that says what they cover, and their status.
#[tactic(auto, unfolding(crate::specs::Answers::bounded_answer))]
pub fn bounded_engine<A: Allocator + Copy, P: Source>(
    alloc: A,
    inputs: &[u32],
    campaign: BoundedCampaign,
    program: &mut P,
    progress: &mut impl Progress,
) -> Result<(String<A>, Finished), CommandFault>
    requires fits { campaign.first + campaign.count < 2 ^ 64 }
    requires program_counts { P.failures program.old < 2 ^ 64 - 1 }
    // The report of the range's runs, what they cover, and their end.
    ensures done { IfOk result (λ answer. IfSome (P.left program.old) (λ p.
        bounded_answer campaign inputs.now p ≡ Ok (string_bytes answer.0, answer.1))) }
    // An input is invalid.
    ensures refused { IfErr result (λ fault. IsRefusal fault
        → IfSome (P.left program.old) (λ p. bounded_answer campaign inputs.now p ≡ Err fault)) }
    // The program's device is named only if it failed, and no other is.
    ensures read { IfErr result (λ fault. IfNames fault
        (P.failures program.old < P.failures program.new) ⊥ ⊥ ⊥) }
{
    let image = read_image(alloc, ProgramForm::Elf, program)?;
    let inputs = Inputs::new(inputs)?;
    match report_image(alloc, &image, &inputs, campaign, progress) {
        Ok(answer) => Ok(answer),
        Err(AllocError) => Err(CommandFault::Memory),
    }
}
