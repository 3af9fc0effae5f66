//! A law of failures.
ghost use Rattle.std.specs.Prelude.{◌≡◌, ℕ, List, Some};
ghost use Rattle.cmd_shrink.specs.Failure.{failure_after, RunFailsSo};
ghost use Rattle.cmd_shrink.specs.declared.failure.Failure.{Failure};
ghost use Rattle.machine.specs.declared.choice.Choice.{Choice};
ghost use Rattle.outcome.specs.declared.expect.Expect.{Expect};
ghost use Rattle.image.specs.Image.{ImageValue};
ghost use Rattle.property_judge.specs.declared.property.Property.{Property};

/// A run fails in the way that `failure_after` returns.
pub fn failing_run_fails_so()
    ensures { (expect : Expect) (properties : List Property) (image : ImageValue) (inputs : List ℕ)
        (choices : List Choice) (how : Failure)
        → failure_after expect properties image inputs choices ≡ Some how
        → RunFailsSo how image inputs choices }
{}
