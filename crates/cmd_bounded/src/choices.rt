//! The choices of one schedule.

ghost use Rattle.std.specs.Prelude.{◌≡◌, ◌-◌, ◌^◌, ◌<◌, Ok, Err, IfOk, IfErr, IfSome, drop};
ghost use Rattle.campaign_bounded.specs.Walk.{schedules_left};
ghost use Rattle.program_open.specs.CommandFaults.{IfNames, IsRefusal};
ghost use Rattle.cmd_bounded.specs.Choices.{bytes_if_given, choices_of_bounded, first_choices};
ghost use Rattle.cmd_bounded.specs.Runs.{every_schedule};

use crate::bounded::BoundedCampaign;
use crate::engine::walk_of;
use crate::run::next_fair;
use byte_io::Source;
use campaign_bounded::Schedules;
use image::Image;
use machine::Inputs;
use mem_flat::FlatStore;
use mem_store::FromImage;
use program_open::{CommandFault, ProgramForm, read_image};
use sched_text::print_runs;
use std::alloc::{AllocError, Allocator};

// The choices of the next schedule of a walk; `None` if none is left.
fn next_choices<S: FromImage<A>, A: Allocator + Copy>(
    alloc: A,
    walk: &mut Schedules<S, A>,
    inputs: &Inputs,
    campaign: BoundedCampaign,
) -> Result<Option<String<A>>, AllocError>
    ensures { IfOk result (λ text. bytes_if_given text
        ≡ first_choices campaign inputs.now (schedules_left S.memory walk.old)) }
{
    match next_fair(alloc, walk, inputs, campaign)? {
        None => Ok(None),
        Some(schedule) => {
            let text = print_runs(alloc, &schedule.choices)?;
            Ok(Some(text))
        }
    }
}

// Those of an image's first schedule.
fn choices_of_image<A: Allocator + Copy>(
    alloc: A,
    image: &Image<A>,
    inputs: &Inputs,
    campaign: BoundedCampaign,
) -> Result<Option<String<A>>, AllocError>
    ensures { IfOk result (λ text. bytes_if_given text ≡ first_choices campaign inputs.now
        (drop campaign.first (every_schedule campaign image.now inputs.now))) }
{
    let mut walk: Schedules<FlatStore<A>, A> = walk_of(alloc, image, inputs, campaign)?;
    walk.skip(alloc, campaign.first)?;
    next_choices(alloc, &mut walk, inputs, campaign)
}

/// The choices of a campaign's first schedule, with its fair tail, as a choice text: its run ends
/// as the campaign reports. `None` if there are no more schedules than stand before it.
#[tactic(auto, unfolding(crate::specs::Choices::choices_of_bounded))]
pub fn bounded_choices_engine<A: Allocator + Copy, P: Source>(
    alloc: A,
    inputs: &[u32],
    campaign: BoundedCampaign,
    program: &mut P,
) -> Result<Option<String<A>>, CommandFault>
    requires { P.failures program.old < 2 ^ 64 - 1 }
    // The choices of this schedule.
    ensures done { IfOk result (λ text. IfSome (P.left program.old) (λ p.
        choices_of_bounded campaign inputs.now p ≡ Ok (bytes_if_given text))) }
    // An input is invalid.
    ensures refused { IfErr result (λ fault. IsRefusal fault
        → IfSome (P.left program.old) (λ p. choices_of_bounded campaign inputs.now p ≡ Err fault)) }
    // The program's device is named only if it failed, and no other is.
    ensures read { IfErr result (λ fault. IfNames fault
        (P.failures program.old < P.failures program.new) ⊥ ⊥ ⊥) }
{
    let image = read_image(alloc, ProgramForm::Elf, program)?;
    let inputs = Inputs::new(inputs)?;
    match choices_of_image(alloc, &image, &inputs, campaign) {
        Ok(text) => Ok(text),
        Err(AllocError) => Err(CommandFault::Memory),
    }
}
