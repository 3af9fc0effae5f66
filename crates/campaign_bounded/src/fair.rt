//! The fair tail of a schedule, and how its run ends.

ghost use Rattle.std.specs.Prelude.{◌≡◌, ◌<◌, ◌++◌, ◌∷◌, [], map, IfOk, OnOk};
ghost use Rattle.hart_step.specs.Hart.{hart_of};
ghost use Rattle.machine.specs.Machine.{world};
ghost use Rattle.machine.specs.World.{step};
ghost use Rattle.outcome.specs.Ends.{verdict_on};
ghost use Rattle.outcome.specs.Expect.{judged};
ghost use Rattle.sched_draw.specs.Turns.{plain_choice};
ghost use Rattle.campaign_bounded.specs.Fair.{led_by_turn, led_by_turns, fair_end};
ghost use Rattle.campaign_bounded.specs.Walk.{led_of};

use crate::schedule::Schedule;
use machine::{Choice, Inputs, Machine};
use mem_store::Store;
use object_library::judge;
use outcome::{Expect, Outcome, some_run};
use std::alloc::{AllocError, Allocator};

impl<S: Store, A: Allocator> Schedule<S, A> {
    /// Takes a fair tail, if some hart still runs: `steps` further steps of the harts in turn. The
    /// only error is out of memory.
    pub fn end_fairly(&mut self, harts: u32, steps: u64) -> Result<(), AllocError>
        requires { 0 < harts }
        ensures { OnOk result (led_of S.memory self.new
            ≡ fair_end harts steps (led_of S.memory self.old)) }
    {
        if some_run(self.machine.ends()) {
            self.take_turns(harts, steps)?;
        }
        Ok(())
    }

    // Takes steps of the harts in turn.
    fn take_turns(&mut self, harts: u32, steps: u64) -> Result<(), AllocError>
        requires { 0 < harts }
        ensures { OnOk result (led_of S.memory self.new
            ≡ led_by_turns harts steps (led_of S.memory self.old)) }
    {
        'turns: for turn in 0..steps {
            self.take_turn((turn % u64::from(harts)) as u32)?;
        }
        Ok(())
    }

    // Takes a step of a hart.
    fn take_turn(&mut self, hart: u32) -> Result<(), AllocError>
        ensures { OnOk result (led_of S.memory self.new
            ≡ led_by_turn (led_of S.memory self.old) (plain_choice hart)) }
    {
        let choice = Choice {
            hart,
            refuse: false,
        };
        take_step(&mut self.machine, choice)?;
        self.choices.push(choice)?;
        Ok(())
    }

    /// How the run ended, judged by what is expected.
    pub fn judge(&self, inputs: &Inputs, expect: Expect) -> Outcome
        ensures { result ≡ judged expect.rule inputs.now (led_of S.memory self.now).choices
            (led_of S.memory self.now).world.harts }
    {
        let harts = self.machine.ends();
        let verdict = match expect.rule {
            None => None,
            Some(kind) => Some(judge(kind, inputs.words(), &self.choices, harts)),
        };
        Outcome::of(verdict, harts)
    }
}

/// Takes a step. That of a hart that doesn't exist changes nothing. The only error is out of memory.
#[tactic(auto, using(crate::proofs::FairLemmas::step_of_nobody))]
pub(crate) fn take_step<S: Store, A: Allocator>(
    machine: &mut Machine<S, A>,
    choice: Choice,
) -> Result<(), AllocError>
    ensures { OnOk result (world S.memory machine.new ≡ step (world S.memory machine.old) choice) }
{
    if choice.hart as usize >= machine.harts() {
        return Ok(());
    }
    machine.step(choice)
}
