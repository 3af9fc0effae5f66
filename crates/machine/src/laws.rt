//! Laws of every run.
ghost use Rattle.std.specs.Prelude.{◌≡◌, ℕ, ◌%◌, List, ◌++◌, length};
ghost use Rattle.std.specs.List.{All};
ghost use Rattle.image.specs.Image.{ImageValue};
ghost use Rattle.hart_step.specs.Laws.{Keeps, IsAligned, HasZero};
ghost use Rattle.machine.specs.World.{World, run};
ghost use Rattle.machine.specs.Start.{started};
ghost use Rattle.machine.specs.Machine.{world};
ghost use Rattle.machine.specs.declared.choice.Choice.{Choice};

use crate::machine::Machine;
use mem_store::Store;
use std::alloc::Allocator;

/// The run of choices and then more choices is the run of the latter from the world that the former
/// lead to.
pub fn run_goes_on()
    ensures { (w : World) (choices more : List Choice)
        → run w (choices ++ more) ≡ run (run w choices) more }
{}

/// No run changes the number of harts.
pub fn run_keeps_harts()
    ensures { (w : World) (choices : List Choice)
        → length (run w choices).harts ≡ length w.harts }
{}

/// No run changes a right, or a byte that is not writable.
pub fn run_keeps_unwritable()
    ensures { (w : World) (choices : List Choice) → Keeps w.memory (run w choices).memory }
{}

/// In every machine `x0` of each hart is 0, whatever harts were put into it.
pub fn every_machine_has_zero<S: Store, A: Allocator>(machine: &Machine<S, A>)
    ensures { All HasZero (world S.memory machine.now).harts }
{}

/// In every run of a program `x0` of each hart is 0.
pub fn run_keeps_zero()
    ensures { (image : ImageValue) (inputs : List ℕ) (choices : List Choice)
        → All HasZero (run (started image inputs) choices).harts }
{}

/// In every run of a program each hart's `pc` is a multiple of 4.
pub fn run_keeps_alignment()
    ensures { (image : ImageValue) (inputs : List ℕ) (choices : List Choice) → image.entry % 4 ≡ 0
        → All IsAligned (run (started image inputs) choices).harts }
{}
