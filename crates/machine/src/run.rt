//! Steps and runs.
ghost use Rattle.std.specs.Prelude.{◌≡◌, ℕ, ◌<◌, ◌≤◌, OnOk, OnErr, IfErr, IsTrue, All, map, take, length, vec_len, slice_get, slice_set, Some};
ghost use Rattle.hart_step.specs.Hart.{hart_of};
ghost use Rattle.hart_reservations.specs.Reserve.{marks};
ghost use Rattle.machine.specs.World.{step, run};
ghost use Rattle.machine.specs.Machine.{world};
ghost use Rattle.machine.specs.Wanting.{ChoiceStores, NextStores};

use crate::choice::Choice;
use crate::machine::Machine;
use hart_reservations::Reserve;
use hart_step::{Hart, step_hart};
use mem_store::Store;
use std::alloc::{AllocError, Allocator};

/// A run that ended early: out of memory.
#[derive(Clone, Copy, PartialEq, Eq)]
pub struct Stopped {
    /// The number of choices that were done.
    pub done: usize,
}

impl<S: Store, A: Allocator> Machine<S, A> {
    /// The number of harts: 1 to `MAX_HARTS` in a machine that was started.
    pub fn harts(&self) -> usize
        ensures { result ≡ length (world S.memory self.now).harts }
    {
        self.harts.len()
    }

    /// One hart.
    pub fn hart(&self, number: usize) -> &Hart
        requires { number < length (world S.memory self.now).harts }
        ensures { slice_get (world S.memory self.now).harts number ≡ Some (hart_of result.now) }
    {
        &self.harts[number]
    }

    /// All harts, in the order of their numbers.
    pub fn ends(&self) -> &[Hart]
        ensures { map hart_of result.now ≡ (world S.memory self.now).harts }
    {
        &self.harts
    }

    /// The memory that the harts share.
    pub fn store(&self) -> &S
        ensures { S.memory result.now ≡ (world S.memory self.now).memory }
    {
        &self.store
    }

    /// The word that each hart has reserved.
    pub fn reserve(&self) -> &Reserve
        ensures { marks result.now ≡ (world S.memory self.now).reserved }
    {
        &self.reserve
    }

    /// Replaces a hart; nothing else changes. For callers that know where steps lead a hart and
    /// need not take them again.
    pub fn put_hart(&mut self, number: usize, hart: Hart)
        requires { number < length (world S.memory self.old).harts }
        ensures { world S.memory self.new ≡ record (world S.memory self.old) {
          harts = slice_set (world S.memory self.old).harts number (hart_of hart);
        } }
    {
        self.harts[number] = hart;
    }

    /// One event: the chosen hart takes its step. Fails only when out of memory; then nothing has
    /// changed.
    pub fn step(&mut self, choice: Choice) -> Result<(), AllocError>
        requires { choice.hart < length (world S.memory self.old).harts }
        ensures ok { OnOk result (world S.memory self.new ≡ step (world S.memory self.old) choice) }
        ensures err { OnErr result (world S.memory self.new ≡ world S.memory self.old) }
        ensures refused { OnErr result (IsTrue S.grows) }
        // Memory is allocated only if the chosen hart's step stores.
        ensures stores { OnErr result (ChoiceStores (world S.memory self.old) choice) }
        ensures harts { length (world S.memory self.new).harts
            ≡ length (world S.memory self.old).harts }
    {
        let number = choice.hart as usize;
        step_hart(
            &mut self.harts[number],
            number,
            &mut self.store,
            &mut self.reserve,
            choice.refuse,
        )
    }

    /// The events of choices, in order. Fails only when out of memory; then the machine is in the
    /// state after the choices that were done.
    #[tactic(auto, using(crate::proofs::WorldLemmas::run_more, crate::proofs::WorldLemmas::run_none, crate::proofs::StepLemmas::next_stores))]
    pub fn run(&mut self, choices: &[Choice]) -> Result<(), Stopped>
        requires { All (λ c. c.hart < length (world S.memory self.old).harts) choices.now }
        ensures ok { OnOk result (world S.memory self.new
            ≡ run (world S.memory self.old) choices.now) }
        ensures err { IfErr result (λ stopped. (stopped.done < length choices.now)
            × (world S.memory self.new
            ≡ run (world S.memory self.old) (take stopped.done choices.now))) }
        ensures refused { OnErr result (IsTrue S.grows) }
        ensures stores { IfErr result (λ stopped.
            NextStores (world S.memory self.old) choices.now stopped.done) }
        ensures harts { length (world S.memory self.new).harts
            ≡ length (world S.memory self.old).harts }
    {
        for (done, choice) in choices.iter().enumerate() {
            if self.step(*choice).is_err() {
                return Err(Stopped { done });
            }
        }
        Ok(())
    }
}
