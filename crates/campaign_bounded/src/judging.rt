//! Properties of one's own, judged over a schedule.

ghost use Rattle.std.specs.Prelude.{◌≡◌, OnOk, map};
ghost use Rattle.machine.specs.Machine.{world};
ghost use Rattle.property_judge.specs.Judged.{judged_run};
ghost use Rattle.campaign_bounded.specs.Walk.{led_of};

use crate::fair::take_step;
use crate::schedule::Schedule;
use machine::{Choice, Machine};
use mem_store::{FromImage, Store};
use property_judge::{Judged, judge_world};
use std::alloc::{AllocError, Allocator};

impl<S: FromImage<A>, A: Allocator + Copy> Schedule<S, A> {
    /// Judges properties over the run of the choices from a machine on: in its world, and after
    /// each choice. What was broken before stays. The only error is out of memory.
    pub fn judge_properties(
        &self,
        alloc: A,
        start: &Machine<S, A>,
        judged: &mut [Judged],
    ) -> Result<(), AllocError>
        ensures { OnOk result (judged.new
            ≡ map (judged_run (world S.memory start.now) (led_of S.memory self.now).choices) judged.old) }
    {
        if judged.is_empty() {
            return Ok(());
        }
        let mut machine = start.copy(alloc)?;
        judge_choices(&mut machine, &self.choices, judged)
    }
}

// Takes steps, and judges properties in the world before each and in the last one.
fn judge_choices<S: Store, A: Allocator>(
    machine: &mut Machine<S, A>,
    choices: &[Choice],
    judged: &mut [Judged],
) -> Result<(), AllocError>
    ensures { OnOk result (judged.new
        ≡ map (judged_run (world S.memory machine.old) choices.now) judged.old) }
{
    'choices: for (done, choice) in choices.iter().enumerate() {
        judge_world(machine, done, judged);
        take_step(machine, *choice)?;
    }
    judge_world(machine, choices.len(), judged);
    Ok(())
}
