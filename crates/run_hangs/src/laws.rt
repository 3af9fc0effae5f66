//! A law of statuses.
ghost use Rattle.std.specs.Prelude.{◌≡◌};
ghost use Rattle.byte_io.specs.declared.status.Status.{Status};
ghost use Rattle.run_hangs.specs.Status.{run_code};
ghost use Rattle.run_hangs.specs.declared.status.RunStatus.TheVariants.{Hangs, Of};

/// No other status has the number of a hang.
#[tactic(auto, using(crate::proofs::StatusLemmas::own_code))]
pub fn hang_has_its_own_code()
    ensures { (status : Status) → run_code (Of status) ≡ run_code Hangs → ⊥ }
{}
