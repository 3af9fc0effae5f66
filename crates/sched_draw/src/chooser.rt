//! The sources of a run's choices.

ghost use Rattle.std.specs.Prelude.{◌≡◌, ◌+◌, ◌-◌, ◌<◌, ◌≤◌, ℕ, List, [], ◌∷◌, IfOk, length};
ghost use Rattle.std.specs.List.{All};
ghost use Rattle.hart_reservations.specs.Limit.{most_harts};
ghost use Rattle.machine.specs.Machine.{world};
ghost use Rattle.machine.specs.World.{World};
ghost use Rattle.machine.specs.declared.choice.Choice.{Choice};
ghost use Rattle.sched_run.specs.Chosen.{harts_of};
ghost use Rattle.sched_draw.specs.Partway.{LeadsOn};

use machine::{Choice, Machine};
use mem_store::Store;
use sched_run::Chosen;
use std::alloc::{AllocError, Allocator};
use std::ops::Range;

/// A source of a run's choices. Each is made when its step comes.
pub trait Chooser: Drop {
    /// The next choices, from a step and a world on.
    ghost choices: { Self → ℕ → ℕ → World → List Choice };

    /// Whether it chooses among this number of harts.
    ghost IsFor: { Self → ℕ → Type 0 };

    /// Takes the steps of a machine's run from one up to another, and marks the harts that it
    /// chooses. The only error is out of memory.
    fn run<S: Store, A: Allocator>(
        &mut self,
        machine: &mut Machine<S, A>,
        chosen: &mut Chosen,
        from: u64,
        to: u64,
    ) -> Result<(), AllocError>
        requires few { length (world S.memory machine.old).harts ≤ most_harts }
        requires is_for { IsFor self.old (length (world S.memory machine.old).harts) }
        requires ahead { from ≤ to }
        ensures harts { IfOk result (λ _. length (world S.memory machine.new).harts
            ≡ length (world S.memory machine.old).harts) }
        ensures stays { IfOk result (λ _. IsFor self.new (length (world S.memory machine.old).harts)) }
        ensures ran { IfOk result (λ _. (steps : ℕ) → to ≤ steps → LeadsOn
            (choices self.old from (steps - from) (world S.memory machine.old))
            (world S.memory machine.old) (harts_of chosen.old)
            (choices self.new to (steps - to) (world S.memory machine.new))
            (world S.memory machine.new) (harts_of chosen.new)) };

    /// The harts that it can choose from now on, of this number of harts.
    fn span(&self, harts: u32) -> Range<u32>
        requires { IsFor self.now harts }
        ensures among { (step n : ℕ) (w : World)
            → All (λ c. (result.start ≤ c.hart) × (c.hart < result.end)) (choices self.now step n w) }
        ensures there { result.end ≤ harts };

    /// No choices for 0 steps.
    ghost none: { (c : Self) (step : ℕ) (w : World) → choices c step 0 w ≡ [] };
}

/// A source of choices that are the same in each run.
pub trait Drawer: Drop {
    /// The next choices, from a step on.
    ghost drawn: { Self → ℕ → ℕ → List Choice };

    /// Number of harts that it draws from.
    ghost harts: { Self → ℕ };

    /// The choice at a step.
    fn draw(&mut self, step: u64) -> Choice
        ensures draws { (n : ℕ) → drawn self.old step (n + 1) ≡ result ∷ drawn self.new (step + 1) n }
        ensures within { result.hart < harts self.old }
        ensures stays { harts self.new ≡ harts self.old };

    /// The harts that it can draw from now on.
    fn span(&self) -> Range<u32>
        ensures among { (step n : ℕ)
            → All (λ c. (result.start ≤ c.hart) × (c.hart < result.end)) (drawn self.now step n) }
        ensures there { result.end ≤ harts self.now };

    /// No choices for 0 steps.
    ghost none: { (d : Self) (step : ℕ) → drawn d step 0 ≡ [] };
}

/// A chooser of choices that are the same in each run.
#[derive(Drop)]
pub(crate) struct Same<D>(pub(crate) D);

impl<D: Drawer> Chooser for Same<D> {
    ghost choices = { λ c step n _. D.drawn c.0 step n };

    ghost IsFor = { λ c n. D.harts c.0 ≡ n };

    ghost none = { λ c step _. D.none c.0 step };

    // Inlined, so that the drawer stays in registers.
    #[inline(always)]
    fn run<S: Store, A: Allocator>(
        &mut self,
        machine: &mut Machine<S, A>,
        chosen: &mut Chosen,
        from: u64,
        to: u64,
    ) -> Result<(), AllocError> {
        'steps: for step in from..to {
            let choice = self.0.draw(step);
            chosen.add(choice.hart as usize);
            machine.step(choice)?;
        }
        Ok(())
    }

    fn span(&self, _harts: u32) -> Range<u32> {
        self.0.span()
    }
}
