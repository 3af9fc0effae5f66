//! The logs of a run of threads over banks can be merged.
ghost use Rattle.std.specs.Prelude.{◌≡◌, ℕ, List};
ghost use Rattle.image.specs.Image.{ImageValue};
ghost use Rattle.bank_memory.specs.BankLog.{BankLog};
ghost use Rattle.bank_hart_log.specs.HartLog.{HartLogValue};
ghost use Rattle.bank_merge.specs.Logs.{AreOf};
ghost use Rattle.bank_merge.specs.Merge.{RefusesLogs};
ghost use Rattle.bank_merge.specs.declared.merging.MergeFault.{MergeFault};
ghost use Rattle.bank_merge.specs.declared.merging.MergeFault.TheVariants.{Memory};
ghost use Rattle.bank_threads.specs.Banked.{IsBanked};

/// The result of a run meets the precondition of `merge`.
pub fn banked_runs_are_of_one_program()
    ensures { (image : ImageValue) (inputs : List ℕ) (budget : ℕ) (plan : List (ℕ × ℕ)) (logs : List HartLogValue)
        (banks : List BankLog) → IsBanked image inputs budget plan logs banks → AreOf image inputs logs banks }
{}

/// For the result of a run, the only error of `merge` is out of memory.
pub fn banked_runs_merge()
    ensures { (image : ImageValue) (inputs : List ℕ) (budget : ℕ) (plan : List (ℕ × ℕ)) (logs : List HartLogValue)
        (banks : List BankLog) → IsBanked image inputs budget plan logs banks
        → (fault : MergeFault) → RefusesLogs logs banks fault → fault ≡ Memory }
{}
