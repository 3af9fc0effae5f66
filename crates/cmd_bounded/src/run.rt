//! The run over one schedule.

ghost use Rattle.std.specs.Prelude.{◌≡◌, ◌++◌, IfOk, length, map};
ghost use Rattle.hart_step.specs.Hart.{hart_of};
ghost use Rattle.machine.specs.Machine.{world};
ghost use Rattle.campaign_bounded.specs.Walk.{led_of, schedules_left};
ghost use Rattle.campaign_runs.specs.Ending.{ending_of};
ghost use Rattle.campaign_runs.specs.Properties.{before_run};
ghost use Rattle.cmd_bounded.specs.Runs.{ending_of_led, fair_of, GivesEnd, GivesFair};

use crate::bounded::BoundedCampaign;
use campaign_bounded::{Schedule, Schedules};
use campaign_runs::{Ending, SeedEnd};
use machine::{Inputs, Machine};
use mem_store::{FromImage, Store};
use property_judge::{Judged, Property};
use std::alloc::{AllocError, Allocator};

/// The next schedule with its fair tail; `None` if none is left. The only error is out of memory.
pub(crate) fn next_fair<S: FromImage<A>, A: Allocator + Copy>(
    alloc: A,
    walk: &mut Schedules<S, A>,
    inputs: &Inputs,
    campaign: BoundedCampaign,
) -> Result<Option<Schedule<S, A>>, AllocError>
    ensures { IfOk result (λ next. GivesFair S.memory campaign inputs.now next
        (schedules_left S.memory walk.old) (schedules_left S.memory walk.new)) }
{
    match walk.next(alloc)? {
        None => Ok(None),
        Some(schedule) => {
            let ended = end_fairly(schedule, inputs, campaign)?;
            Ok(Some(ended))
        }
    }
}

// A schedule with its fair tail.
fn end_fairly<S: Store, A: Allocator>(
    schedule: Schedule<S, A>,
    inputs: &Inputs,
    campaign: BoundedCampaign,
) -> Result<Schedule<S, A>, AllocError>
    ensures { IfOk result (λ ended. led_of S.memory ended
        ≡ fair_of campaign inputs.now (led_of S.memory schedule)) }
{
    let mut schedule = schedule;
    schedule.end_fairly(inputs.harts(), campaign.steps)?;
    Ok(schedule)
}

// Appends a property before a run, if there is one.
fn push_unjudged<A: Allocator>(
    judged: &mut Vec<Judged, A>,
    property: Option<Property>,
) -> Result<(), AllocError>
    ensures { IfOk result (λ _. judged.new.items ≡ judged.old.items ++ before_run property) }
{
    if let Some(property) = property {
        judged.push(Judged {
            property,
            broken: None,
        })?;
    }
    Ok(())
}

/// How the run over a schedule ended, from the program's start. The only error is out of memory.
pub(crate) fn ending_of_schedule<S: FromImage<A>, A: Allocator + Copy>(
    alloc: A,
    start: &Machine<S, A>,
    schedule: &Schedule<S, A>,
    inputs: &Inputs,
    campaign: BoundedCampaign,
) -> Result<Ending<A>, AllocError>
    ensures { IfOk result (λ ending.
        ending_of ending ≡ ending_of_led campaign (world S.memory start.now) inputs.now (led_of S.memory schedule.now)) }
{
    let outcome = schedule.judge(inputs, campaign.expect);
    let mut judged = Vec::new(alloc);
    push_unjudged(&mut judged, campaign.properties.first)?;
    push_unjudged(&mut judged, campaign.properties.second)?;
    schedule.judge_properties(alloc, start, &mut judged)?;
    Ending::of(
        alloc,
        campaign.form,
        campaign.report,
        outcome,
        &judged,
        schedule.machine.ends(),
    )
}

/// The number of the next schedule, and how its run ended; `None` if none is left. The only error
/// is out of memory.
pub(crate) fn next_end<S: FromImage<A>, A: Allocator + Copy>(
    alloc: A,
    walk: &mut Schedules<S, A>,
    start: &Machine<S, A>,
    inputs: &Inputs,
    campaign: BoundedCampaign,
    number: u64,
) -> Result<Option<SeedEnd<A>>, AllocError>
    ensures { IfOk result (λ next. GivesEnd campaign (world S.memory start.now) inputs.now number next
        (schedules_left S.memory walk.old) (schedules_left S.memory walk.new)) }
{
    match next_fair(alloc, walk, inputs, campaign)? {
        None => Ok(None),
        Some(schedule) => {
            let ending = ending_of_schedule(alloc, start, &schedule, inputs, campaign)?;
            Ok(Some(SeedEnd {
                seed: number,
                ending,
            }))
        }
    }
}
