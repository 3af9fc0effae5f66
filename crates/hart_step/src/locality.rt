//! Laws: what a step depends on.
ghost use Rattle.std.specs.Prelude.{◌≡◌, ℕ, Bool, true, None};
ghost use Rattle.mem_store.specs.Memory.{Memory};
ghost use Rattle.isa_table.specs.declared.instr.Instr.{Instr};
ghost use Rattle.hart_step.specs.Hart.{Registers};
ghost use Rattle.hart_step.specs.Fault.{fault};
ghost use Rattle.hart_step.specs.Effect.{Site};
ghost use Rattle.hart_step.specs.Local.{is_local, ChangesHartAlone};
ghost use Rattle.hart_step.specs.Locality.{access_by, IsInOneWord, Agrees, StepsAlike};

/// A step depends only on its hart, the rights, its own reservation, the word that it fetches and
/// the bytes of its one access; and it changes no byte outside that access.
#[tactic(auto, using(crate::proofs::LocalityLemmas::steps_alike))]
pub fn step_is_local()
    ensures { (h : ℕ) (refuse : Bool) (s t : Site) → Agrees h s t → StepsAlike h refuse s t }
{}

/// An instruction without a fault accesses bytes of at most one aligned word.
#[tactic(auto, using(crate::proofs::AccessLemmas::in_one_word))]
pub fn access_is_in_one_word()
    ensures { (i : Instr) (m : Memory) (x : Registers) (pc : ℕ) → fault i m x pc ≡ None
        → IsInOneWord (access_by i x) }
{}

/// A local instruction depends on neither memory, reservations, the hart's number nor the refusal;
/// and it changes neither memory nor reservations.
#[tactic(auto, using(crate::proofs::LocalLemmas::changes_hart_alone))]
pub fn local_instruction_is_its_harts()
    ensures { (i : Instr) (h k : ℕ) (refuse again : Bool) (s t : Site) → is_local i ≡ true → s.hart ≡ t.hart
        → ChangesHartAlone i h k refuse again s t }
{}
