//! Tests of lists of choices.
ghost use Rattle.std.specs.Prelude.{◌≡◌, List, Ok, true, false};
ghost use Rattle.machine.specs.declared.choice.Choice.{Choice};

use machine::Choice;
use std::alloc::AllocError;

/// A test of lists of choices: each fails or doesn't.
pub trait Failing {
    /// What it means that a list fails.
    ghost fails: { Self → List Choice → Type 0 };

    /// Whether a list fails. A test may need memory.
    fn is_failing(&self, choices: &[Choice]) -> Result<bool, AllocError>
        ensures failed { result ≡ Ok true → fails self.now choices.now }
        ensures passed { result ≡ Ok false → fails self.now choices.now → ⊥ };
}
