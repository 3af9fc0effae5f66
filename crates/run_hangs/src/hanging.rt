//! Whether a run hangs.
ghost use Rattle.std.specs.Prelude.{◌≡◌, ◌<◌, ◌≤◌, IfOk, length};
ghost use Rattle.hart_reservations.specs.Limit.{most_harts};
ghost use Rattle.machine.specs.State.{state};
ghost use Rattle.mem_store.specs.Memory.{all_below};
ghost use Rattle.sched_draw.specs.Turns.{turns};
ghost use Rattle.run_hangs.specs.Hanging.{alone_first, hangs_after, hangs_from, runs_on, steps_for};

use crate::going_on::go_on;
use crate::running::machine_after;
use image::Image;
use machine::{Choice, Inputs, Machine};
use mem_flat::FlatStore;
use outcome::some_run;
use sched_draw::Schedule;
use std::alloc::{AllocError, Allocator};

/// The least number of further steps by which a run is found to hang.
pub const FEWEST_STEPS: usize = 10_000;

/// The number of further steps by which a run of `choices` choices is found to hang.
pub fn steps_for(choices: usize) -> usize
    ensures { result ≡ steps_for choices }
{
    if choices < FEWEST_STEPS {
        FEWEST_STEPS
    } else {
        choices
    }
}

// Whether some hart runs after `steps` further steps in turn.
fn runs_on_by_turns<A: Allocator + Copy>(
    alloc: A,
    machine: &Machine<FlatStore<A>, A>,
    harts: u32,
    steps: usize,
) -> Result<bool, AllocError>
    requires some { 0 < harts }
    requires few { harts ≤ most_harts }
    requires there { length (state machine.now).harts ≡ harts }
    ensures { IfOk result (λ running. running ≡ runs_on (state machine.now) (turns harts steps)) }
{
    let mut later = machine.copy(alloc)?;
    go_on(alloc, &mut later, Schedule::Turns, harts, steps)?;
    Ok(some_run(later.ends()))
}

// Whether some hart runs after `steps` further steps of one hart, and then as many in turn.
fn runs_on_after_one<A: Allocator + Copy>(
    alloc: A,
    machine: &Machine<FlatStore<A>, A>,
    harts: u32,
    steps: usize,
    hart: u32,
) -> Result<bool, AllocError>
    requires one { hart < harts }
    requires few { harts ≤ most_harts }
    requires there { length (state machine.now).harts ≡ harts }
    ensures { IfOk result (λ running. running
        ≡ runs_on (state machine.now) (alone_first harts steps hart)) }
{
    let mut copy = machine.copy(alloc)?;
    go_on(alloc, &mut copy, Schedule::Only(hart), harts, steps)?;
    go_on(alloc, &mut copy, Schedule::Turns, harts, steps)?;
    Ok(some_run(copy.ends()))
}

// Whether some hart runs after further steps, whichever hart takes its own first.
#[tactic(auto, using(crate::proofs::BelowLemmas::all_none, crate::proofs::BelowLemmas::all_more))]
fn runs_on_after_any<A: Allocator + Copy>(
    alloc: A,
    machine: &Machine<FlatStore<A>, A>,
    harts: u32,
    steps: usize,
) -> Result<bool, AllocError>
    requires few { harts ≤ most_harts }
    requires there { length (state machine.now).harts ≡ harts }
    ensures { IfOk result (λ running. running
        ≡ all_below harts (λ hart. runs_on (state machine.now) (alone_first harts steps hart))) }
{
    'harts: for hart in 0..harts {
        if !runs_on_after_one(alloc, machine, harts, steps, hart)? {
            return Ok(false);
        }
    }
    Ok(true)
}

/// Whether a run hangs that left a machine of `harts` harts so: some hart still runs after `steps`
/// further steps of the harts in turn, and also if any one hart takes `steps` steps alone before
/// that. The only error is out of memory.
pub fn hangs_from<A: Allocator + Copy>(
    alloc: A,
    machine: &Machine<FlatStore<A>, A>,
    harts: u32,
    steps: usize,
) -> Result<bool, AllocError>
    requires some { 0 < harts }
    requires few { harts ≤ most_harts }
    requires there { length (state machine.now).harts ≡ harts }
    ensures { IfOk result (λ hangs. hangs ≡ hangs_from harts steps (state machine.now)) }
{
    if !runs_on_by_turns(alloc, machine, harts, steps)? {
        return Ok(false);
    }
    let running = runs_on_after_any(alloc, machine, harts, steps)?;
    Ok(running)
}

/// Whether the run of a list of choices hangs, from an image's start. The only error is out of
/// memory.
pub fn hangs_after<A: Allocator + Copy>(
    alloc: A,
    image: &Image<A>,
    inputs: &Inputs,
    choices: &[Choice],
    steps: usize,
) -> Result<bool, AllocError>
    ensures { IfOk result (λ hangs. hangs ≡ hangs_after steps image.now inputs.now choices.now) }
{
    let machine = machine_after(alloc, image, inputs, choices)?;
    hangs_from(alloc, &machine, inputs.harts(), steps)
}
