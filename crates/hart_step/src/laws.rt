//! Laws: what each step keeps, for every instruction.
ghost use Rattle.std.specs.Prelude.{ℕ, Bool};
ghost use Rattle.hart_step.specs.Hart.{hart_of};
ghost use Rattle.hart_step.specs.Effect.{Site};
ghost use Rattle.hart_step.specs.Step.{stepped};
ghost use Rattle.hart_step.specs.Laws.{Keeps, IsAligned, HasZero};

use crate::hart::Hart;

/// A step keeps all rights, and each byte that is not writable.
pub fn step_keeps_unwritable()
    ensures { (h : ℕ) (refuse : Bool) (s : Site) → Keeps s.memory (stepped h refuse s).memory }
{}

/// If `pc` is a multiple of 4 before a step, it is after it: a jump elsewhere is a fault.
pub fn step_keeps_alignment()
    ensures { (h : ℕ) (refuse : Bool) (s : Site) → IsAligned s.hart → IsAligned (stepped h refuse s).hart }
{}

/// If `x0` is 0 before a step, it is after it.
pub fn step_keeps_zero()
    ensures { (h : ℕ) (refuse : Bool) (s : Site) → HasZero s.hart → HasZero (stepped h refuse s).hart }
{}

/// In every hart `x0` is 0.
pub fn every_hart_has_zero(hart: &Hart)
    ensures { HasZero (hart_of hart.now) }
{}
