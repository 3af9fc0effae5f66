//! Runs from an image's start.
ghost use Rattle.std.specs.Prelude.{◌≡◌, IfOk, length};
ghost use Rattle.machine.specs.Start.{started};
ghost use Rattle.machine.specs.State.{state};
ghost use Rattle.machine.specs.World.{step, run};

use image::Image;
use machine::{Choice, Inputs, Machine};
use mem_flat::FlatStore;
use std::alloc::{AllocError, Allocator};

/// One choice. That of a hart that doesn't exist changes nothing.
#[tactic(auto, using(crate::proofs::StepLemmas::step_of_nobody))]
#[inline]
pub fn take_step<A: Allocator>(machine: &mut Machine<FlatStore<A>, A>, choice: Choice)
    ensures { state machine.new ≡ step (state machine.old) choice }
{
    if choice.hart as usize >= machine.harts() {
        return;
    }
    // Over a flat store a step needs no memory.
    let Ok(()) = machine.step(choice) else {
        unreachable!();
    };
}

// One choice after another.
#[tactic(auto, using(machine::proofs::WorldLemmas::run_more, machine::proofs::WorldLemmas::run_none))]
fn take_steps<A: Allocator>(machine: &mut Machine<FlatStore<A>, A>, choices: &[Choice])
    ensures { state machine.new ≡ run (state machine.old) choices.now }
{
    'choices: for choice in choices {
        take_step(machine, *choice);
    }
}

/// The machine after choices, from an image's start. The only error is out of memory.
pub fn machine_after<A: Allocator + Copy>(
    alloc: A,
    image: &Image<A>,
    inputs: &Inputs,
    choices: &[Choice],
) -> Result<Machine<FlatStore<A>, A>, AllocError>
    ensures run { IfOk result (λ machine. state machine ≡ run (started image.now inputs.now) choices.now) }
    ensures harts { IfOk result (λ machine. length (state machine).harts ≡ length inputs.now) }
{
    let mut machine: Machine<FlatStore<A>, A> = Machine::start(alloc, image, inputs)?;
    take_steps(&mut machine, choices);
    Ok(machine)
}
