//! The run of one seed.

ghost use Rattle.std.specs.Prelude.{◌≡◌, ◌<◌, ◌≤◌, [], IfOk, length};
ghost use Rattle.std.specs.List.{All};
ghost use Rattle.hart_reservations.specs.Limit.{most_harts};
ghost use Rattle.machine.specs.State.{state};
ghost use Rattle.sched_draw.specs.Schedules.{drawn_choices};
ghost use Rattle.campaign_runs.specs.Ending.{ending_of};
ghost use Rattle.campaign_runs.specs.Hangs.{ending_left};
ghost use Rattle.campaign_runs.specs.Properties.{unjudged};
ghost use Rattle.campaign_runs.specs.Runs.{ending_after, ending_from, seed_ending};

use crate::campaign::Campaign;
use crate::ending::Ending;
use machine::{Choice, Inputs, Machine, Stopped};
use mem_flat::FlatStore;
use outcome::{Outcome, verdict_on};
use property_judge::{Judged, judge_run};
use run_hangs::hangs_if;
use sched_draw::{Schedule, list_run, run_schedule};
use std::alloc::{AllocError, Allocator};

/// A seed and how its run ended.
#[derive(Drop)]
pub struct SeedEnd<A: Allocator> {
    /// The seed of the schedule.
    pub seed: u64,
    /// How the run ended.
    pub ending: Ending<A>,
}

/// Runs one seed on a copy of a machine, so that the program's code isn't decoded again for each
/// seed. The run is judged at once, so its harts aren't held. The only error is out of memory.
pub fn run_seed<A: Allocator + Copy>(
    alloc: A,
    start: &Machine<FlatStore<A>, A>,
    inputs: &Inputs,
    campaign: Campaign,
    seed: u64,
) -> Result<SeedEnd<A>, AllocError>
    requires there { length (state start.now).harts ≡ length inputs.now }
    ensures { IfOk result (λ end. seed_ending end
        ≡ ending_from (state start.now) campaign inputs.now seed) }
{
    if campaign.properties.is_empty() {
        run_plain(alloc, start, inputs, campaign, seed)
    } else {
        run_judged(alloc, start, inputs, campaign, seed)
    }
}

// The ending of a run that left a machine of `harts` harts so, with the words of memory that the
// campaign names; it is decided whether the run hangs, if the campaign asks for that.
fn ending_left<A: Allocator + Copy>(
    alloc: A,
    campaign: Campaign,
    outcome: Outcome,
    judged: &[Judged],
    machine: &Machine<FlatStore<A>, A>,
    harts: u32,
) -> Result<Ending<A>, AllocError>
    requires some { 0 < harts }
    requires few { harts ≤ most_harts }
    requires there { length (state machine.now).harts ≡ harts }
    ensures { IfOk result (λ ending. ending_of ending
        ≡ ending_left campaign harts outcome judged.now (state machine.now)) }
{
    let (form, report) = (campaign.form, campaign.report);
    let mut ending = Ending::of(alloc, form, report, outcome, judged, machine.ends())?;
    let seen = campaign.words.seen(alloc, report, machine)?;
    ending.see(form, &seen)?;
    let hangs = hangs_if(
        alloc,
        campaign.hangs,
        machine,
        harts,
        campaign.steps as usize,
    )?;
    ending.decide(form, hangs)?;
    Ok(ending)
}

// As `run_seed`, where there is no property: each choice is drawn when its step comes.
fn run_plain<A: Allocator + Copy>(
    alloc: A,
    start: &Machine<FlatStore<A>, A>,
    inputs: &Inputs,
    campaign: Campaign,
    seed: u64,
) -> Result<SeedEnd<A>, AllocError>
    requires there { length (state start.now).harts ≡ length inputs.now }
    requires none { unjudged campaign.properties ≡ [] }
    ensures { IfOk result (λ end. seed_ending end
        ≡ ending_from (state start.now) campaign inputs.now seed) }
{
    let mut machine = start.copy(alloc)?;
    let schedule = Schedule::Seeded {
        seed,
        draw: campaign.draw,
    };
    let chosen = run_schedule(
        alloc,
        &mut machine,
        schedule,
        inputs.harts(),
        campaign.steps,
    )?;
    let outcome = campaign
        .expect
        .judge(alloc, inputs.words(), &chosen, machine.ends())?;
    let ending = ending_left(alloc, campaign, outcome, &[], &machine, inputs.harts())?;
    Ok(SeedEnd { seed, ending })
}

// The choices that a seed draws, as a list.
fn list_seed<A: Allocator + Copy>(
    alloc: A,
    start: &Machine<FlatStore<A>, A>,
    harts: u32,
    campaign: Campaign,
    seed: u64,
) -> Result<Vec<Choice, A>, AllocError>
    requires some { 0 < harts }
    requires there { length (state start.now).harts ≡ harts }
    ensures drawn { IfOk result (λ choices. choices.items
        ≡ drawn_choices campaign.draw (state start.now) harts campaign.steps seed) }
    ensures within { IfOk result (λ choices. All (λ c. c.hart < harts) choices.items) }
{
    let mut machine = start.copy(alloc)?;
    let schedule = Schedule::Seeded {
        seed,
        draw: campaign.draw,
    };
    let choices = list_run(alloc, &mut machine, schedule, harts, campaign.steps)?;
    Ok(choices)
}

/// Runs choices on a copy of a machine, and judges the campaign's properties at the start and after
/// each choice. The only error is out of memory.
pub fn ending_of_choices<A: Allocator + Copy>(
    alloc: A,
    start: &Machine<FlatStore<A>, A>,
    inputs: &Inputs,
    campaign: Campaign,
    choices: &[Choice],
) -> Result<Ending<A>, AllocError>
    requires there { length (state start.now).harts ≡ length inputs.now }
    requires within { All (λ c. c.hart < length inputs.now) choices.now }
    ensures { IfOk result (λ ending. ending_of ending
        ≡ ending_after (state start.now) campaign inputs.now choices.now) }
{
    let mut machine = start.copy(alloc)?;
    let mut judged = campaign.properties.unjudged(alloc)?;
    match judge_run(&mut machine, choices, &mut judged) {
        Ok(()) => {}
        Err(Stopped { .. }) => return Err(AllocError),
    }
    let verdict = verdict_on(
        campaign.expect.rule,
        inputs.words(),
        choices,
        machine.ends(),
    );
    let outcome = Outcome::of(verdict, machine.ends());
    ending_left(alloc, campaign, outcome, &judged, &machine, inputs.harts())
}

// As `run_seed`: the choices are held as a list.
fn run_judged<A: Allocator + Copy>(
    alloc: A,
    start: &Machine<FlatStore<A>, A>,
    inputs: &Inputs,
    campaign: Campaign,
    seed: u64,
) -> Result<SeedEnd<A>, AllocError>
    requires there { length (state start.now).harts ≡ length inputs.now }
    ensures { IfOk result (λ end. seed_ending end
        ≡ ending_from (state start.now) campaign inputs.now seed) }
{
    let choices = list_seed(alloc, start, inputs.harts(), campaign, seed)?;
    let end = ending_of_choices(alloc, start, inputs, campaign, &choices)?;
    Ok(SeedEnd { seed, ending: end })
}
