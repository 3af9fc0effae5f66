//! Counted steps.
ghost use Rattle.std.specs.Prelude.{◌≡◌, ◌<◌, ◌+◌, ◌^◌, All, length, OnOk};
ghost use Rattle.machine.specs.World.{run, step};
ghost use Rattle.debug_session.specs.Paged.{paged_world};

use crate::paged_machine::PagedMachine;
use machine::Choice;
use std::alloc::{AllocError, Allocator};

/// One step, counted.
pub fn tick<A: Allocator + Copy>(
    machine: &mut PagedMachine<A>,
    cost: &mut u64,
    choice: Choice,
) -> Result<(), AllocError>
    requires hart { choice.hart < length (paged_world machine.old).harts }
    requires room { cost.old + 1 < 2 ^ 64 }
    ensures ok { OnOk result (paged_world machine.new ≡ step (paged_world machine.old) choice) }
    ensures counted { cost.new ≡ cost.old + 1 }
    ensures harts { length (paged_world machine.new).harts
        ≡ length (paged_world machine.old).harts }
{
    *cost += 1;
    machine.step(choice)
}

/// Steps in order, counted.
#[tactic(auto, using(machine::proofs::WorldLemmas::run_more, machine::proofs::WorldLemmas::run_none))]
pub fn walk<A: Allocator + Copy>(
    machine: &mut PagedMachine<A>,
    cost: &mut u64,
    choices: &[Choice],
) -> Result<(), AllocError>
    requires harts { All (λ c. c.hart < length (paged_world machine.old).harts) choices.now }
    requires room { cost.old + length choices.now < 2 ^ 64 }
    ensures ok { OnOk result (paged_world machine.new ≡ run (paged_world machine.old) choices.now) }
    ensures counted { OnOk result (cost.new ≡ cost.old + length choices.now) }
    ensures harts { length (paged_world machine.new).harts
        ≡ length (paged_world machine.old).harts }
{
    'choices: for choice in choices {
        tick(machine, cost, *choice)?;
    }
    Ok(())
}
