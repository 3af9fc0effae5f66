//! Whether the run of a list of choices breaks a property.
ghost use Rattle.std.specs.Prelude.{◌≡◌, IfOk, is_some};
ghost use Rattle.machine.specs.State.{state};
ghost use Rattle.property_judge.specs.Broken.{first_broken};
ghost use Rattle.cmd_shrink.specs.Failure.{breaks_property, broken_property};

use image::Image;
use machine::{Choice, Inputs, Machine};
use mem_flat::FlatStore;
use property_judge::{Property, holds_in};
use run_hangs::take_step;
use std::alloc::{AllocError, Allocator};

// Whether a property doesn't hold in the machine's world, or not after one of these choices. The
// machine takes the choices before that.
fn breaks_within<A: Allocator>(
    machine: &mut Machine<FlatStore<A>, A>,
    choices: &[Choice],
    property: Property,
) -> bool
    ensures { result ≡ is_some (first_broken property (state machine.old) choices.now) }
{
    'choices: for choice in choices {
        if !holds_in(property, machine) {
            return true;
        }
        take_step(machine, *choice);
    }
    !holds_in(property, machine)
}

/// Whether the run of a list of choices, from an image's start, breaks a property: it doesn't hold
/// at the start, or not after one of the choices.
pub fn breaks_property<A: Allocator + Copy>(
    alloc: A,
    property: Property,
    image: &Image<A>,
    inputs: &Inputs,
    choices: &[Choice],
) -> Result<bool, AllocError>
    ensures { IfOk result (λ broken. broken
        ≡ breaks_property property image.now inputs.now choices.now) }
{
    let mut machine: Machine<FlatStore<A>, A> = Machine::start(alloc, image, inputs)?;
    Ok(breaks_within(&mut machine, choices, property))
}

/// The first of these properties that the run of a list of choices breaks.
pub(crate) fn broken_property<A: Allocator + Copy>(
    alloc: A,
    properties: &[Property],
    image: &Image<A>,
    inputs: &Inputs,
    choices: &[Choice],
) -> Result<Option<Property>, AllocError>
    ensures { IfOk result (λ broken. broken
        ≡ broken_property properties.now image.now inputs.now choices.now) }
{
    'properties: for property in properties {
        if breaks_property(alloc, *property, image, inputs, choices)? {
            return Ok(Some(*property));
        }
    }
    Ok(None)
}
