//! The terms of one run of threads.
use std::marker::Brand;
use std::sync::ledger::Ledger;

/// The program, the harts' inputs, the budget, the total and the plan of one run, and the ledger of
/// its tickets. They exist only in proofs, so that a lock's type can name them; each run picks its own.
pub trait Terms: Ledger {
    ghost use Rattle.std.specs.Prelude.{ℕ, List, Option};
    ghost use Rattle.image.specs.Image.{ImageValue};

    ghost image: { ImageValue };

    ghost inputs: { List ℕ };

    ghost budget: { ℕ };

    ghost total: { Option ℕ };

    ghost plan: { List (ℕ × ℕ) };
}

impl Terms for Brand {
    ghost use Rattle.std.specs.Prelude.{[], None};

    ghost image = { record { entry = 0; segments = [] } };

    ghost inputs = { [] };

    ghost budget = { 0 };

    ghost total = { None };

    ghost plan = { [] };
}
