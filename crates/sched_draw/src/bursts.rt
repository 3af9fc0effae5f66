//! Schedules in bursts, drawn one choice at a time.

ghost use Rattle.std.specs.Prelude.{◌≡◌, ℕ, ◌+◌, ◌-◌, ◌*◌, ◌%◌, ◌<◌, ◌≤◌, IfOk, length};
ghost use Rattle.hart_reservations.specs.Limit.{most_harts};
ghost use Rattle.machine.specs.Machine.{world};
ghost use Rattle.sched_run.specs.Chosen.{harts_of};
ghost use Rattle.sched_draw.specs.Limits.{most_mean};
ghost use Rattle.sched_draw.specs.Partway.{LeadsOn};
ghost use Rattle.sched_draw.specs.Refusing.{is_refused};
ghost use Rattle.sched_draw.specs.Bursts.{BurstDrawing, burst_drawing, burst_drawn, in_burst, next_burst_choice, after_burst_choice, burst_choices_drawn};
ghost use Rattle.sched_draw.specs.NoSteps.{no_bursts};

use crate::chooser::{Chooser, Drawer};
use crate::even::seeded_generator;
use crate::order::Mean;
use crate::refusals::{OneIn16, Refusals, Rule};
use machine::{Choice, Machine};
use mem_store::Store;
use rand_core::utils::NextWord;
use rand_pcg::Lcg64Xsh32;
use sched_run::Chosen;
use std::alloc::{AllocError, Allocator};
use std::marker::Model;
use std::ops::Range;

/// The state of drawing choices in bursts from a seed.
#[derive(Drop)]
pub(crate) struct Bursts {
    harts: u32,
    mean: u32,
    refusals: Refusals,
    hart: u32,
    left: u32,
    generator: Lcg64Xsh32,
}

impl Model for Bursts {
    ghost Value = { BurstDrawing };

    ghost view = { λ b. record {
      harts = b.harts;
      mean = b.mean;
      refusals = b.refusals;
      hart = b.hart;
      left = b.left;
      generator = b.generator;
    } };

    ghost invariant = { λ b. (b.hart < b.harts) × (0 < b.mean) × (b.mean ≤ most_mean) };
}

impl Bursts {
    /// The state at a seed, with bursts of this mean length and these refusals.
    #[tactic(auto, unfolding(crate::specs::Bursts::burst_drawing))]
    pub(crate) fn new(harts: u32, mean: Mean, refusals: Refusals, seed: u64) -> Bursts
        requires { 0 < harts }
        ensures begun { result ≡ burst_drawing harts mean.choices refusals seed }
        ensures harts { result.harts ≡ harts }
    {
        Bursts {
            harts,
            mean: mean.choices(),
            refusals,
            hart: 0,
            left: 0,
            generator: seeded_generator(seed),
        }
    }

    // Draws a burst if none is left: one word for its hart, the next for its length.
    #[tactic(auto, unfolding(crate::specs::Bursts::burst_drawn))]
    fn begin_burst(&mut self)
        ensures state { self.new ≡ in_burst self.old }
        ensures some { 0 < self.new.left }
    {
        if self.left == 0 {
            let hart = self.generator.next_word() % self.harts;
            let others = self.generator.next_word() % (self.mean - 1 + self.mean);
            self.hart = hart;
            self.left = others + 1;
        }
    }

    // Draws the next choice of a burst of which some are left. One word decides whether its
    // store-conditional is refused.
    #[inline]
    fn go_on<R: Rule>(&mut self, rule: R) -> Choice
        requires some { 0 < self.old.left }
        requires same { (word : ℕ) → R.refused rule word ≡ is_refused self.old.refusals word }
        ensures choice { result ≡ next_burst_choice self.old }
        ensures state { self.new ≡ after_burst_choice self.old }
        ensures within { result.hart < self.old.harts }
        ensures left { self.new.left ≡ self.old.left - 1 }
        ensures harts { self.new.harts ≡ self.old.harts }
        ensures refusals { self.new.refusals ≡ self.old.refusals }
    {
        let word = self.generator.next_word();
        self.left -= 1;
        Choice {
            hart: self.hart,
            refuse: rule.does_refuse(word),
        }
    }

    // Draws the next choice. If a burst begins, two words before it give the hart and the length.
    fn next_choice(&mut self) -> Choice
        ensures choice { result ≡ next_burst_choice self.old }
        ensures state { self.new ≡ after_burst_choice self.old }
        ensures within { result.hart < self.old.harts }
    {
        self.begin_burst();
        let refusals = self.refusals;
        self.go_on(refusals)
    }

    // Takes the steps from one up to another, of a burst of which as many are left. Inlined, so that
    // the burst stays in registers.
    #[inline(always)]
    fn run_burst<R: Rule, S: Store, A: Allocator>(
        &mut self,
        rule: R,
        machine: &mut Machine<S, A>,
        chosen: &mut Chosen,
        from: u64,
        to: u64,
    ) -> Result<(), AllocError>
        requires few { length (world S.memory machine.old).harts ≤ most_harts }
        requires is_for { self.old.harts ≡ length (world S.memory machine.old).harts }
        requires ahead { from ≤ to }
        requires left { to ≤ from + self.old.left }
        requires same { (word : ℕ) → R.refused rule word ≡ is_refused self.old.refusals word }
        ensures harts { IfOk result (λ _. length (world S.memory machine.new).harts
            ≡ length (world S.memory machine.old).harts) }
        ensures stays { IfOk result (λ _. self.new.harts ≡ length (world S.memory machine.old).harts) }
        ensures ran { IfOk result (λ _. (steps : ℕ) → to ≤ steps → LeadsOn
            (burst_choices_drawn (steps - from) self.old)
            (world S.memory machine.old) (harts_of chosen.old)
            (burst_choices_drawn (steps - to) self.new)
            (world S.memory machine.new) (harts_of chosen.new)) }
    {
        'steps: for _ in from..to {
            let choice = self.go_on(rule);
            chosen.add(choice.hart as usize);
            machine.step(choice)?;
        }
        Ok(())
    }

    // As `run_burst`, by the rule of the refusals.
    #[inline(always)]
    fn run_begun<S: Store, A: Allocator>(
        &mut self,
        machine: &mut Machine<S, A>,
        chosen: &mut Chosen,
        from: u64,
        to: u64,
    ) -> Result<(), AllocError>
        requires few { length (world S.memory machine.old).harts ≤ most_harts }
        requires is_for { self.old.harts ≡ length (world S.memory machine.old).harts }
        requires ahead { from ≤ to }
        requires left { to ≤ from + self.old.left }
        ensures harts { IfOk result (λ _. length (world S.memory machine.new).harts
            ≡ length (world S.memory machine.old).harts) }
        ensures stays { IfOk result (λ _. self.new.harts ≡ length (world S.memory machine.old).harts) }
        ensures ran { IfOk result (λ _. (steps : ℕ) → to ≤ steps → LeadsOn
            (burst_choices_drawn (steps - from) self.old)
            (world S.memory machine.old) (harts_of chosen.old)
            (burst_choices_drawn (steps - to) self.new)
            (world S.memory machine.new) (harts_of chosen.new)) }
    {
        let refusals = self.refusals;
        if refusals.is_usual() {
            self.run_burst(OneIn16, machine, chosen, from, to)
        } else {
            self.run_burst(refusals, machine, chosen, from, to)
        }
    }
}

impl Drawer for Bursts {
    ghost drawn = { λ b _ n. burst_choices_drawn n b };

    ghost harts = { λ b. b.harts };

    ghost none = { λ b _. no_bursts b };

    fn draw(&mut self, _step: u64) -> Choice {
        self.next_choice()
    }

    fn span(&self) -> Range<u32> {
        0..self.harts
    }
}

impl Chooser for Bursts {
    ghost choices = { λ b _ n _. burst_choices_drawn n b };

    ghost IsFor = { λ b n. b.harts ≡ n };

    ghost none = { λ b _ _. no_bursts b };

    // A burst at a time: its steps draw no hart, and ask for none.
    #[inline(always)]
    fn run<S: Store, A: Allocator>(
        &mut self,
        machine: &mut Machine<S, A>,
        chosen: &mut Chosen,
        from: u64,
        to: u64,
    ) -> Result<(), AllocError> {
        let mut step = from;
        'bursts: while step < to {
            self.begin_burst();
            let end = step + (to - step).min(u64::from(self.left));
            self.run_begun(machine, chosen, step, end)?;
            step = end;
        }
        Ok(())
    }

    fn span(&self, _harts: u32) -> Range<u32> {
        0..self.harts
    }
}
