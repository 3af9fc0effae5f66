//! An example of a history, and of the choices that it stands for.
ghost use Rattle.std.specs.Prelude.{◌≡◌, [], ◌∷◌, true, false};
ghost use Rattle.history.specs.History.{choice, entry, expanded};

/// `0+3 1+0!` stands for the choices `0 0 0 0 1!`.
#[tactic(auto, unfolding(crate::specs::History::expanded))]
pub fn history_in_an_example()
    ensures { expanded (entry 0 3 false ∷ entry 1 0 true ∷ [])
        ≡ choice 0 false ∷ choice 0 false ∷ choice 0 false ∷ choice 0 false ∷ choice 1 true ∷ [] }
{}
