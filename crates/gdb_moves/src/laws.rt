//! Laws: GDB's own step over a hit is one choice; nothing is passed unseen after such steps.
ghost use Rattle.std.specs.Prelude.{◌≡◌, ◌≤◌, ◌<◌, ◌+◌, ℕ, true, false, List, Option, Some, None, slice_get};
ghost use Rattle.machine.specs.declared.choice.Choice.{Choice};
ghost use Rattle.debug_session.specs.Searches.{IsLeastStop, IsGreatestStop};
ghost use Rattle.debug_session.specs.Session.{Session, world_at, last_of};
ghost use Rattle.debug_session.specs.Stops.{has};
ghost use Rattle.gdb_moves.specs.After.{reason_unless, IsStopOrNone};
ghost use Rattle.gdb_moves.specs.Points.{Marked};
ghost use Rattle.gdb_moves.specs.Sights.{seen_at};
ghost use Rattle.gdb_moves.specs.Reasons.{ahead, behind, wanted_stop};
ghost use Rattle.gdb_moves.specs.Steps.{step_alone_found};
ghost use Rattle.gdb_moves.specs.declared.goal.Goal.TheVariants.{StepBack};
ghost use Rattle.gdb_moves.specs.declared.stop.AddressRange.{AddressRange};
ghost use Rattle.gdb_moves.specs.declared.stop.StopReason.TheVariants.{Ready};
ghost use Rattle.gdb_moves.specs.declared.stop.ThreadStop.{ThreadStop};
ghost use Rattle.gdb_moves.specs.declared.stop.Whose.TheVariants.{One};

/// If the choice at the position is a step of its hart, and neither a hit nor a fault, then a step
/// of that hart alone is that choice.
#[tactic(auto, using(crate::proofs::LawLemmas::one_choice))]
pub fn step_alone_is_the_choice_at_hand()
    ensures { (m : Marked) (s : Session) (c : Choice) (range : AddressRange)
        → slice_get s.choices s.position ≡ Some c
        → (seen_at m (world_at s s.position) c).ran ≡ true
        → ahead (seen_at m (world_at s s.position) c) ≡ None → range.to ≤ range.from
        → (step_alone_found m c.hart range s).0 ≡ s.position + 1 }
{}

/// If the choice just below a position is a step of its hart and no hit, then a step back of that
/// hart alone goes to just before that choice.
#[tactic(auto, using(crate::proofs::LawLemmas::one_choice_back))]
pub fn step_back_alone_is_the_choice_below()
    ensures { (m : Marked) (s : Session) (c : Choice) (i : ℕ) → slice_get s.choices i ≡ Some c
        → (seen_at m (world_at s i) c).ran ≡ true → behind (seen_at m (world_at s i) c) ≡ None
        → last_of (wanted_stop m (One c.hart) (StepBack c.hart)) s (i + 1)
        ≡ (i + 1, Some (record { hart = c.hart; reason = Ready })) }
{}

/// A move of all threads that passes choices leaves nothing else unseen, forwards and backwards:
/// each choice that was searched is passed, has no reason to stop, or is that of the stop.
pub fn nothing_is_passed_unseen()
    ensures ahead { (passed : List ℕ) (reason : ℕ → Option ThreadStop) (from to k i : ℕ)
        (stop : Option ThreadStop) → IsLeastStop (reason_unless passed reason) from to k stop
        → from ≤ i → i < k → has passed i ≡ false → IsStopOrNone reason k stop i }
    ensures back { (passed : List ℕ) (reason : ℕ → Option ThreadStop) (to k i : ℕ)
        (stop : Option ThreadStop) → IsGreatestStop (reason_unless passed reason) to k stop
        → k ≤ i + 1 → i < to → has passed i ≡ false → IsStopOrNone reason k stop i }
{}

/// The choice at which such a move stops is none that it passes, and has that reason to stop.
pub fn a_stop_is_no_passed_choice()
    ensures ahead { (passed : List ℕ) (reason : ℕ → Option ThreadStop) (from to i : ℕ)
        (stop : ThreadStop)
        → IsLeastStop (reason_unless passed reason) from to (i + 1) (Some stop)
        → (has passed i ≡ false) × (reason i ≡ Some stop) }
    ensures back { (passed : List ℕ) (reason : ℕ → Option ThreadStop) (to i : ℕ)
        (stop : ThreadStop)
        → IsGreatestStop (reason_unless passed reason) to (i + 1) (Some stop)
        → (has passed i ≡ false) × (reason i ≡ Some stop) }
{}
