//! Laws of code and of local steps.
ghost use Rattle.std.specs.Prelude.{◌≡◌, ℕ, ◌+◌, Bool, Some, IsTrue};
ghost use Rattle.mem_store.specs.Memory.{Memory};
ghost use Rattle.hart_reservations.specs.Marks.{Marks};
ghost use Rattle.hart_step.specs.Hart.{HartValue};
ghost use Rattle.hart_step.specs.Effect.{site};
ghost use Rattle.hart_step.specs.Step.{stepped};
ghost use Rattle.hart_step.specs.Laws.{Keeps};
ghost use Rattle.hart_local.specs.CodeMemory.{code_in};
ghost use Rattle.hart_local.specs.LocalStep.{is_local_next, step_alone, walk};

/// If the bytes that are not writable stay the same, so does the code.
#[tactic(auto, using(crate::proofs::StepLemmas::code_kept))]
pub fn code_stays()
    ensures { (m n : Memory) → Keeps m n → code_in n ≡ code_in m }
{}

/// A local step of the code in a memory is the definition's step over that memory, whatever the
/// reservations, the hart's number and the refusal; it changes only its hart.
#[tactic(auto, using(crate::proofs::StepLemmas::step_is_alone))]
pub fn local_step_is_a_step()
    ensures { (v : HartValue) (m : Memory) (r : Marks) (h : ℕ) (refuse : Bool)
        → IsTrue (is_local_next (code_in m) v)
        → stepped h refuse (site v m r) ≡ site (step_alone (code_in m) v) m r }
{}

/// A walk from where another ended is one walk with it.
#[tactic(auto, using(crate::proofs::StepLemmas::walks_join))]
pub fn walks_are_one()
    ensures { (code : Memory) (m n : ℕ) (v u t : HartValue) → walk code m v ≡ Some u
        → walk code n u ≡ Some t → walk code (m + n) v ≡ Some t }
{}
