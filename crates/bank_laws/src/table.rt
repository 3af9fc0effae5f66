//! A hart's step as a step of the image's table.
ghost use Rattle.std.specs.Prelude.{ℕ, Bool};
ghost use Rattle.mem_store.specs.Memory.{Memory};
ghost use Rattle.hart_step.specs.Hart.{HartValue};
ghost use Rattle.hart_step.specs.Effect.{Site};
ghost use Rattle.hart_step.specs.Step.{stepped};
ghost use Rattle.hart_step.specs.Laws.{Keeps, IsAligned};
ghost use Rattle.bank_laws.specs.Runs.{TableWorld, table_step};
ghost use Rattle.bank_laws.specs.Table.{table};
ghost use Rattle.bank_laws.specs.Shown.{ShowsSite};

/// Each step of a hart whose memory comes from an image's, whatever its instruction and its fault,
/// is the step of the image's table: it is known by the hart, the word at `pc` where that isn't
/// code, and the one word that the instruction touches.
pub fn step_is_the_tables()
    ensures { (m : Memory) (k : ℕ) (refuse : Bool) (s : Site) (w : TableWorld HartValue)
        → Keeps m s.memory → IsAligned s.hart → ShowsSite w k s
        → ShowsSite (table_step (table m) w k refuse) k (stepped k refuse s) }
{}
