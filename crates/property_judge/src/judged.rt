//! Properties that are judged over a run.
ghost use Rattle.std.specs.Prelude.{◌≡◌, ◌<◌, OnOk, OnErr, IfErr, IsTrue, All, map, take, length};
ghost use Rattle.hart_step.specs.Hart.{hart_of};
ghost use Rattle.machine.specs.World.{run};
ghost use Rattle.machine.specs.Machine.{world};
ghost use Rattle.property_judge.specs.Judged.{judged_after, judged_at, judged_run};
ghost use Rattle.property_judge.specs.Property.{is_kept_by};
ghost use Rattle.property_judge.specs.Reach.{reach_of};

use crate::judging::{holds_in, is_within};
use crate::property::Property;
use crate::reach::{Reach, is_out_of_reach, reach_of};
use hart_step::Hart;
use machine::{Choice, Machine, Stopped};
use mem_store::Store;
use std::alloc::Allocator;

/// A property, and where a run broke it.
#[derive(Clone, Copy, PartialEq, Eq)]
pub struct Judged {
    /// The property.
    pub property: Property,
    /// The least number of choices after which it didn't hold, 0 for the start; `None` if it held
    /// in each world that was judged.
    pub broken: Option<usize>,
}

// Judges a property in the machine's world, to which `done` choices have led.
fn judge_one<S: Store, A: Allocator>(machine: &Machine<S, A>, done: usize, judged: &mut Judged)
    ensures { judged.new ≡ judged_at done (world S.memory machine.now) judged.old }
{
    if judged.broken.is_some() || holds_in(judged.property, machine) {
        return;
    }
    judged.broken = Some(done);
}

/// Judges the machine's world, to which `done` choices have led. What was broken before stays.
pub fn judge_world<S: Store, A: Allocator>(
    machine: &Machine<S, A>,
    done: usize,
    judged: &mut [Judged],
)
    ensures { judged.new ≡ map (judged_at done (world S.memory machine.now)) judged.old }
{
    for each in judged.iter_mut() {
        judge_one(machine, done, each);
    }
}

// Whether a step keeps a property, by the hart that took it alone: whoever is not between two
// addresses has not come to be there.
fn is_kept_by(property: &Property, hart: &Hart) -> bool
    ensures { result ≡ is_kept_by property.now (hart_of hart.now) }
{
    match property {
        Property::Always { .. } => false,
        Property::NeverBoth { from, to } => !is_within(hart, *from, *to),
    }
}

// Judges a property in the machine's world, to which `done` choices have led, the last of them of
// this hart. What was broken before, or holds for sure, isn't looked at.
fn judge_one_after<S: Store, A: Allocator>(
    machine: &Machine<S, A>,
    hart: &Hart,
    done: usize,
    judged: &mut Judged,
)
    ensures { judged.new
        ≡ judged_after done (world S.memory machine.now) (hart_of hart.now) judged.old }
{
    if judged.broken.is_some()
        || is_kept_by(&judged.property, hart)
        || holds_in(judged.property, machine)
    {
        return;
    }
    judged.broken = Some(done);
}

// Judges the machine's world, to which `done` choices have led, the last of them of this hart.
fn judge_after<S: Store, A: Allocator>(
    machine: &Machine<S, A>,
    hart: &Hart,
    done: usize,
    judged: &mut [Judged],
)
    ensures { judged.new
        ≡ map (judged_after done (world S.memory machine.now) (hart_of hart.now)) judged.old }
{
    for each in judged.iter_mut() {
        judge_one_after(machine, hart, done, each);
    }
}

// As `judge_after`, by the properties' reach: a step that leaves its hart elsewhere costs two
// comparisons, however many properties there are.
#[inline]
fn judge_in_reach<S: Store, A: Allocator>(
    machine: &Machine<S, A>,
    hart: &Hart,
    reach: Reach,
    done: usize,
    judged: &mut [Judged],
)
    requires { reach ≡ reach_of judged.old }
    ensures { judged.new
        ≡ map (judged_after done (world S.memory machine.now) (hart_of hart.now)) judged.old }
{
    if is_out_of_reach(reach, hart) {
        return;
    }
    judge_after(machine, hart, done, judged);
}

/// Runs choices, and judges the world before the first and the one after each. Fails only when out
/// of memory; then the machine is in the world after the choices that were done, and the worlds up
/// to that one are judged.
#[tactic(auto, using(machine::proofs::WorldLemmas::run_more, machine::proofs::WorldLemmas::run_none))]
pub fn judge_run<S: Store, A: Allocator>(
    machine: &mut Machine<S, A>,
    choices: &[Choice],
    judged: &mut [Judged],
) -> Result<(), Stopped>
    requires { All (λ c. c.hart < length (world S.memory machine.old).harts) choices.now }
    ensures judged { OnOk result (judged.new
        ≡ map (judged_run (world S.memory machine.old) choices.now) judged.old) }
    ensures ran { OnOk result (world S.memory machine.new
        ≡ run (world S.memory machine.old) choices.now) }
    ensures judged_so_far { IfErr result (λ stopped. judged.new
        ≡ map (judged_run (world S.memory machine.old) (take stopped.done choices.now)) judged.old) }
    ensures stopped { IfErr result (λ stopped. (stopped.done < length choices.now)
        × (world S.memory machine.new
        ≡ run (world S.memory machine.old) (take stopped.done choices.now))) }
    ensures refused { OnErr result (IsTrue S.grows) }
{
    judge_world(machine, 0, judged);
    let reach = reach_of(judged);
    'choices: for (done, choice) in choices.iter().enumerate() {
        if machine.step(*choice).is_err() {
            return Err(Stopped { done });
        }
        let hart = machine.hart(choice.hart as usize);
        judge_in_reach(machine, hart, reach, done + 1, judged);
    }
    Ok(())
}
