//! What turns say of runs, and runs of turns.
ghost use Rattle.std.specs.Prelude.{◌≡◌, ℕ, ◌+◌, ◌<◌, ◌≤◌, true, false, List, length};
ghost use Rattle.std.specs.List.{All, Contains};
ghost use Rattle.machine.specs.World.{World, run};
ghost use Rattle.machine.specs.Chosen.{is_chosen, own};
ghost use Rattle.machine.specs.declared.choice.Choice.{Choice};
ghost use Rattle.explore_laws.specs.Settling.{Stride, turns_choices};
ghost use Rattle.explore_laws.specs.Quiet.{AreAligned, CanWait, OfNextStep};
ghost use Rattle.explore_laws.specs.Places.{Place, place_begun, place_reached};
ghost use Rattle.explore_laws.specs.Covering.{AreClear, HasTurns, WorldCovers};
ghost use Rattle.explore_laws.specs.Bounds.{runs_in, RunsAfter, IsBound, IsExactBound, HasNoBound};
ghost use Rattle.explore_laws.specs.OwnSteps.{steps_in_turns, HasPlainChoices, IsNumbered, KeysAreClear, NumbersFall, HasPath, NumbersAreTaken, GoesRound};

/// Wherever a list of choices leads, no more turns of the same choices lead to a place that stands
/// for it: quiet steps can wait, where the steps that turns choose are clear of them. The turns may
/// start from any world that covers the list's.
#[tactic(auto, using(crate::proofs::CoverLemmas::run_has_turns))]
pub fn every_run_has_turns()
    ensures { (quiet clear : OfNextStep) (stride : Stride) → CanWait quiet clear stride
        → (meant : List Choice) (first w : World) (choices : List Choice) → AreAligned w → WorldCovers quiet first w
        → All (Contains meant) choices → AreClear clear meant (place_begun stride first) (length choices)
        → HasTurns quiet meant (place_begun stride first) w choices }
{}

/// Where turns lead, the run of their choices leads, and chooses the same harts.
#[tactic(auto, using(crate::proofs::TurnLemmas::run_of_turns, crate::proofs::TurnLemmas::chosen_in_turns))]
pub fn turns_are_runs()
    ensures world { (stride : Stride) (w : World) (turns : List Choice)
        → run w (turns_choices stride w turns) ≡ (place_reached (place_begun stride w) turns).world }
    ensures chosen { (stride : Stride) (w : World) (turns : List Choice) (k : ℕ)
        → is_chosen (turns_choices stride w turns) k ≡ (place_reached (place_begun stride w) turns).chosen k }
{}

/// A hart has one exact bound or none; some list of choices chooses it once less, and it still
/// runs.
#[tactic(auto, using(crate::proofs::ExactLemmas::one_exact, crate::proofs::ExactLemmas::no_bound, crate::proofs::ExactLemmas::one_less))]
pub fn exact_bounds_are_one()
    ensures one { (meant : List Choice) (first : World) (h a b : ℕ)
        → IsExactBound meant first h a → IsExactBound meant first h b → a ≡ b }
    ensures or_none { (meant : List Choice) (first : World) (h b : ℕ)
        → IsBound meant first h b → HasNoBound meant first h → ⊥ }
    ensures once_less { (meant : List Choice) (first : World) (h b : ℕ) → IsExactBound meant first h (b + 1)
        → (choices : List Choice) × All (Contains meant) choices × (own choices h ≡ b) × (runs_in (run first choices) h ≡ true) }
{}

/// The steps of a hart in turns are no more than the choices of it there, and as many if it still
/// runs behind them.
#[tactic(auto, using(crate::proofs::OwnLemmas::turns_at_most, crate::proofs::OwnLemmas::turns_count))]
pub fn steps_in_turns_are_choices()
    ensures at_most { (stride : Stride) (w : World) (h : ℕ) (turns : List Choice)
        → steps_in_turns stride w h turns ≤ own (turns_choices stride w turns) h }
    ensures all { (stride : Stride) (w : World) (h : ℕ) (turns : List Choice)
        → runs_in (run w (turns_choices stride w turns)) h ≡ true
        → steps_in_turns stride w h turns ≡ own (turns_choices stride w turns) h }
{}

/// Numbers of places that fall with each turn by a hart's steps in it, or by more, bound the
/// hart's own steps in every list of choices: the bound is the first place's number, and the quiet
/// steps more that the list's world is behind the first place's.
#[tactic(auto, using(crate::proofs::BoundLemmas::numbers_bound_behind))]
pub fn falling_numbers_are_bounds()
    ensures { (quiet clear : OfNextStep) (stride : Stride) → CanWait quiet clear stride
        → (meant : List Choice) (h : ℕ) (place : List ℕ → Place) (keys : List (List ℕ)) (numbers : List ℕ)
        → KeysAreClear clear meant place keys → NumbersFall meant h place keys numbers
        → (first w : World) (b : ℕ) → AreAligned w → Contains meant (record { hart = h; refuse = false })
        → (covers : WorldCovers quiet first w) → IsNumbered place keys numbers (place_begun stride first) b
        → IsBound meant w h (b + own covers.choices h) }
{}

/// Where turns have so many steps of a hart, it may still run after each smaller number of them.
#[tactic(auto, using(crate::proofs::RoundLemmas::path_taken))]
pub fn paths_are_taken()
    ensures { (quiet clear : OfNextStep) (stride : Stride) → CanWait quiet clear stride
        → (meant : List Choice) → HasPlainChoices meant → (first : World) (h b n : ℕ) → AreAligned first
        → HasPath meant h (place_begun stride first) b → n < b → RunsAfter meant first h n }
{}

/// The first place's number is the hart's exact bound if, besides, each number is that of the steps
/// in some turns.
#[tactic(auto, using(crate::proofs::PathLemmas::taken_exact))]
pub fn taken_numbers_are_exact()
    ensures { (quiet clear : OfNextStep) (stride : Stride) → CanWait quiet clear stride
        → (meant : List Choice) → HasPlainChoices meant → (place : List ℕ → Place) (keys : List (List ℕ)) (numbers : List ℕ)
        → KeysAreClear clear meant place keys → (first : World) (h b : ℕ) → AreAligned first
        → Contains meant (record { hart = h; refuse = false })
        → NumbersFall meant h place keys numbers → NumbersAreTaken meant h place keys numbers
        → IsNumbered place keys numbers (place_begun stride first) b → IsExactBound meant first h b }
{}

/// A hart has no bound if turns lead back to the same world and it steps in them.
#[tactic(auto, using(crate::proofs::RoundLemmas::round_unbounded))]
pub fn rounds_have_no_bound()
    ensures { (quiet clear : OfNextStep) (stride : Stride) → CanWait quiet clear stride
        → (meant : List Choice) → HasPlainChoices meant → (first : World) (h : ℕ) → AreAligned first
        → GoesRound meant h (place_begun stride first) → HasNoBound meant first h }
{}
