//! A law of runs of an object on threads.

ghost use Rattle.std.specs.Prelude.{◌^◌, ◌<◌, ℕ, List, Option, None};
ghost use Rattle.std.specs.List.{All};
ghost use Rattle.cmd_run.specs.Certified.{IsCertified};
ghost use Rattle.object_library.specs.declared.kind.Kind.{Kind};
ghost use Rattle.program_open.specs.declared.program.ProgramForm.TheVariants.{Elf};
ghost use Rattle.thread_book.specs.Book.{BookValue};
ghost use Rattle.thread_run.specs.Outcome.{IsOutcome};
ghost use Rattle.cmd_threads.specs.Exits.{ExitsKept, IsBudgetEnough};

/// Where the file of an object is run on threads, by as many harts as it is for, without a total, and
/// each may take as many steps as its bound says, each hart has exited, and the rule is kept.
pub fn objects_on_threads_exit()
    ensures { (program inputs : List ℕ) (rule : Option Kind) (object : IsCertified Elf program inputs rule)
        (budget : ℕ) (plan : List (ℕ × ℕ)) (b : BookValue) → All (λ x. x < 2 ^ 32) inputs
        → IsOutcome object.image inputs budget None plan b → IsBudgetEnough object.kind budget b
        → ExitsKept object.kind b }
{}
