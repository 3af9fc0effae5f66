//! Runs a choice text on a machine.
ghost use Rattle.std.specs.Prelude.{◌≡◌, ◌<◌, ◌≤◌, Err, IfOk, IfErr, length};
ghost use Rattle.hart_reservations.specs.Limit.{most_harts};
ghost use Rattle.machine.specs.World.{step, run};
ghost use Rattle.machine.specs.State.{state};
ghost use Rattle.sched_text.specs.Reading.{choices_read};
ghost use Rattle.sched_text.specs.Runs.{equal_choices};
ghost use Rattle.sched_run.specs.Chosen.{harts_of};
ghost use Rattle.sched_run.specs.Leads.{LeadsTo, LeadsBefore};

use crate::chosen::Chosen;
use crate::reading::Reading;
use machine::{Choice, Machine, runs};
use mem_flat::FlatStore;
use sched_text::{ChoiceFault, Run};
use std::alloc::Allocator;

/// Runs the choices that a text spells on a machine, and returns which harts were chosen. Allocates
/// nothing. The fault is that of the first bad item; the machine has then done the items before it.
pub fn run_choices<A: Allocator>(
    machine: &mut Machine<FlatStore<A>, A>,
    text: &[u8],
    harts: u32,
) -> Result<Chosen, ChoiceFault>
    requires few { harts ≤ most_harts }
    requires there { length (state machine.old).harts ≡ harts }
    ensures ran { IfOk result (λ chosen.
        LeadsTo harts text.now (state machine.old) (state machine.new) (harts_of chosen)) }
    ensures refused { IfErr result (λ fault. choices_read harts text.now ≡ Err fault) }
    ensures stopped { IfErr result (λ fault.
        LeadsBefore harts text.now fault (state machine.old) (state machine.new)) }
{
    let mut chosen = Chosen::new();
    let mut reading = Reading::begin();
    'runs: while let Some(equal) = reading.next(text, harts) {
        chosen.add(equal.choice.hart as usize);
        take_run(machine, equal);
    }
    match reading.fault {
        Some(fault) => Err(fault),
        None => Ok(chosen),
    }
}

// The steps of equal choices. Once the hart has stopped, no more of them change anything, so a count
// of millions costs no more than the steps that the hart takes.
#[inline]
fn take_run<A: Allocator>(machine: &mut Machine<FlatStore<A>, A>, equal: Run)
    requires { equal.choice.hart < length (state machine.old).harts }
    ensures taken { state machine.new ≡ run (state machine.old) (equal_choices equal) }
    ensures harts { length (state machine.new).harts ≡ length (state machine.old).harts }
{
    let mut left = equal.count;
    // The only call of `take_step`, so that the compiler inlines the step.
    'steps: while left > 0 {
        take_step(machine, equal.choice);
        left -= 1;
        if left > 0 && !runs(machine.ends(), equal.choice.hart) {
            return;
        }
    }
}

// One step. Over a flat store it allocates nothing.
#[inline]
fn take_step<A: Allocator>(machine: &mut Machine<FlatStore<A>, A>, choice: Choice)
    requires { choice.hart < length (state machine.old).harts }
    ensures taken { state machine.new ≡ step (state machine.old) choice }
    ensures harts { length (state machine.new).harts ≡ length (state machine.old).harts }
{
    let Ok(()) = machine.step(choice) else {
        unreachable!();
    };
}
