//! Law: an example of a run, in which the definitions give what the manual states.
ghost use Rattle.std.specs.Prelude.{◌≡◌, List, [], ◌∷◌, map};
ghost use Rattle.machine.specs.Example.{after_both};
ghost use Rattle.hart_step.specs.declared.hart.HartState.TheVariants.{Exited};

/// Two harts store into one word, 7 and then 9, and both load 9.
pub fn run_in_an_example()
    ensures statuses { map (λ h. h.state) after_both.harts ≡ Exited 9 ∷ Exited 9 ∷ [] }
    ensures inputs { map (λ h. h.registers 11) after_both.harts ≡ 7 ∷ 9 ∷ [] }
{}
