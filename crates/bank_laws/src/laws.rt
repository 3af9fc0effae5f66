//! The joint run of harts that share memory in banks is determined by their logs.
ghost use Rattle.std.specs.Prelude.{◌≡◌, ◌≢◌, ℕ, Option, List};
ghost use Rattle.bank_laws.specs.declared.access.LoggedAccess.{LoggedAccess};
ghost use Rattle.bank_laws.specs.Banks.{BankState, BanksTell, IsLogged, after_access, after_log, banks_after, named_after, share_of};
ghost use Rattle.bank_laws.specs.Runs.{StepTable, TableWorld, table_run};
ghost use Rattle.bank_laws.specs.Segments.{LoggedSegment, HartSlot, Walks, TellsWorld, accesses, segments_of_hart, segment_turns};
ghost use Rattle.bank_laws.specs.HartLogs.{IsStepwise, slot_after_log};
ghost use Rattle.bank_laws.specs.Order.{In, Rises, Earlier, AreLogs, IsMatched, IsMerged};

/// If the banks and the words of the harts' last LRs have the shared state, they still have it
/// after an access, though it changes only its word's bank.
pub fn access_keeps_joined()
    ensures { (bank_of : ℕ → ℕ) (shared : BankState) (banks : ℕ → BankState) (named : ℕ → Option ℕ) (a : LoggedAccess)
        → BanksTell bank_of shared banks named
        → BanksTell bank_of (after_access shared a) (banks_after bank_of banks a) (named_after named a) }
{}

/// A run over a list of segments, in which each hart's segments are a walk of that hart and each
/// bank's accesses are logged, ends as the walks and the banks' logs do.
pub fn segments_run<H>()
    ensures { (bank_of : ℕ → ℕ) (T : StepTable H) (es : List LoggedSegment) (w : TableWorld H) (slots ends : ℕ → HartSlot H)
        (banks : ℕ → BankState)
        → TellsWorld bank_of w slots banks
        → ((h : ℕ) → Walks T (slots h) (segments_of_hart h es) (ends h))
        → ((b : ℕ) → IsLogged (banks b) (share_of bank_of b (accesses es)))
        → TellsWorld bank_of (table_run T w (segment_turns es)) ends
        (λ b. after_log (banks b) (share_of bank_of b (accesses es))) }
{}

/// Logs of harts and of banks with the same accesses and rising stamps are one run: that of the
/// harts' segments in the order of their stamps, and of the harts' numbers where stamps are equal.
pub fn logs_merge<H>()
    ensures { (bank_of : ℕ → ℕ) (T : StepTable H) (w : TableWorld H) (slots ends : ℕ → HartSlot H) (start : ℕ → BankState)
        (logs : ℕ → List LoggedSegment) (banks : ℕ → List LoggedAccess) (es : List LoggedSegment)
        → AreLogs bank_of T slots ends start logs banks → ((h : ℕ) → Rises Earlier (logs h)) → IsMatched bank_of logs banks
        → IsMerged logs es → TellsWorld bank_of w slots start
        → TellsWorld bank_of (table_run T w (segment_turns es)) ends (λ b. after_log (start b) (banks b)) }
{}

/// One list at most has the segments of all logs in their order.
pub fn merged_list_is_one()
    ensures { (logs : ℕ → List LoggedSegment) (es fs : List LoggedSegment) → IsMerged logs es → IsMerged logs fs → es ≡ fs }
{}

/// Two segments of different harts with equal stamps share no bank, so their order doesn't matter.
pub fn equal_stamps_share_no_bank<H>()
    ensures { (bank_of : ℕ → ℕ) (T : StepTable H) (slots ends : ℕ → HartSlot H) (start : ℕ → BankState)
        (logs : ℕ → List LoggedSegment) (banks : ℕ → List LoggedAccess)
        → AreLogs bank_of T slots ends start logs banks → IsMatched bank_of logs banks
        → (e f : LoggedSegment) (h k : ℕ) → In e (logs h) → In f (logs k) → e.stamp ≡ f.stamp → h ≢ k
        → (a c : LoggedAccess) → In a e.accesses → In c f.accesses → bank_of a.word ≢ bank_of c.word }
{}

/// A log that agrees with the hart's steps one by one is a walk to the slot that those steps reach.
pub fn stepwise_log_walks<H>()
    ensures { (T : StepTable H) (s : HartSlot H) (es : List LoggedSegment)
        → IsStepwise T s es → Walks T s es (slot_after_log T s es) }
{}
