//! Laws: the world after a run of one hart's local steps.
ghost use Rattle.std.specs.Prelude.{◌≡◌, ℕ, List, Some, slice_get};
ghost use Rattle.image.specs.Image.{ImageValue};
ghost use Rattle.mem_store.specs.Image.{image_memory};
ghost use Rattle.hart_step.specs.Hart.{HartValue};
ghost use Rattle.hart_local.specs.CodeMemory.{code_in};
ghost use Rattle.hart_local.specs.LocalStep.{walk};
ghost use Rattle.machine.specs.World.{World, run};
ghost use Rattle.machine.specs.Start.{started};
ghost use Rattle.machine.specs.declared.choice.Choice.{Choice};
ghost use Rattle.hart_local.specs.LocalRuns.{plain_choices, with_walked_hart};

/// If a hart can take n local steps over the code in a world, the run of n plain choices of that
/// hart replaces it by the hart that the steps reach, and changes nothing else.
#[tactic(auto, using(crate::proofs::RunLemmas::run_of_walk))]
pub fn local_choices_place_the_walked_hart()
    ensures { (w : World) (h n : ℕ) (v u : HartValue) → slice_get w.harts h ≡ Some v
        → walk (code_in w.memory) n v ≡ Some u → run w (plain_choices h n) ≡ with_walked_hart w h u }
{}

/// No run changes the code in the memory.
#[tactic(auto, using(crate::proofs::RunLemmas::code_in_run))]
pub fn run_keeps_code()
    ensures { (w : World) (choices : List Choice) → code_in (run w choices).memory ≡ code_in w.memory }
{}

/// In every run of a program the code in memory is that of its image.
#[tactic(auto, using(crate::proofs::RunLemmas::code_of_run))]
pub fn run_keeps_the_images_code()
    ensures { (image : ImageValue) (inputs : List ℕ) (choices : List Choice)
        → code_in (run (started image inputs) choices).memory ≡ code_in (image_memory image) }
{}
