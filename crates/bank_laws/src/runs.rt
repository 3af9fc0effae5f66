//! Logs of harts and of banks as one run.
ghost use Rattle.std.specs.Prelude.{◌≡◌, ℕ, ◌%◌, ◌<◌, ◌≤◌, List, [], map, length};
ghost use Rattle.std.specs.List.{All, AllByRecursion};
ghost use Rattle.image.specs.Image.{ImageValue};
ghost use Rattle.mem_store.specs.Memory.{Memory};
ghost use Rattle.mem_store.specs.Image.{image_memory};
ghost use Rattle.hart_step.specs.Hart.{HartValue};
ghost use Rattle.hart_step.specs.Laws.{Keeps, IsAligned};
ghost use Rattle.machine.specs.World.{World, run};
ghost use Rattle.machine.specs.Start.{started};
ghost use Rattle.bank_laws.specs.declared.access.LoggedAccess.{LoggedAccess};
ghost use Rattle.bank_laws.specs.Banks.{after_log};
ghost use Rattle.bank_laws.specs.Runs.{TableWorld, Turn, table_run};
ghost use Rattle.bank_laws.specs.Segments.{LoggedSegment, HartSlot};
ghost use Rattle.bank_laws.specs.Order.{Rises, Earlier, AreLogs, IsMatched, IsMerged};
ghost use Rattle.bank_laws.specs.Table.{table};
ghost use Rattle.bank_laws.specs.Worlds.{ShowsWorld, choice_of_turn};
ghost use Rattle.bank_laws.specs.Merged.{bank_of, first_slot, first_bank, segment_choices, EndsIn};

/// A run of harts below the number of harts, over memory that comes from an image's, is the run of
/// the image's table.
pub fn run_is_the_tables()
    ensures { (m : Memory) (turns : List Turn) (w : World) (t : TableWorld HartValue)
        → Keeps m w.memory → All IsAligned w.harts → AllByRecursion (λ c. c.hart < length w.harts) turns
        → ShowsWorld t w → ShowsWorld (table_run (table m) t turns) (run w (map choice_of_turn turns)) }
{}

/// Matching logs of a program's harts and of its sixteen banks, with rising stamps, are one run of
/// the program: that of the choices of their segments, in the order of their stamps. It ends with
/// the harts at the end of the logs, the bytes of the banks, and the reservations whose marks are
/// still set.
pub fn matching_logs_are_one_run()
    ensures { (image : ImageValue) (inputs : List ℕ) (ends : ℕ → HartSlot HartValue) (logs : ℕ → List LoggedSegment)
        (banks : ℕ → List LoggedAccess) (es : List LoggedSegment)
        → image.entry % 4 ≡ 0 → ((h : ℕ) → length inputs ≤ h → logs h ≡ [])
        → AreLogs bank_of (table (image_memory image)) (first_slot image inputs) ends (λ b. first_bank image) logs banks
        → ((h : ℕ) → Rises Earlier (logs h)) → IsMatched bank_of logs banks → IsMerged logs es
        → EndsIn image inputs (run (started image inputs) (segment_choices es)) ends (λ b. after_log (first_bank image) (banks b)) }
{}
