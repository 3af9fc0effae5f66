//! Law: the place that is found is that of the first world in which a property doesn't hold.
ghost use Rattle.std.specs.Prelude.{◌≡◌, ℕ, List, Some, None};
ghost use Rattle.machine.specs.World.{World};
ghost use Rattle.machine.specs.declared.choice.Choice.{Choice};
ghost use Rattle.property_judge.specs.Broken.{first_broken};
ghost use Rattle.property_judge.specs.First.{IsFirstBreak, HoldsThroughout};
ghost use Rattle.property_judge.specs.declared.property.Property.{Property};

/// Where a property is broken after k choices, it doesn't hold after them, and holds after fewer.
/// Where it is not broken, it holds at the start and after each choice.
pub fn break_is_the_first()
    ensures broken { (property : Property) (w : World) (choices : List Choice) (k : ℕ)
        → first_broken property w choices ≡ Some k → IsFirstBreak property w choices k }
    ensures kept { (property : Property) (w : World) (choices : List Choice)
        → first_broken property w choices ≡ None → HoldsThroughout property w choices }
{}
