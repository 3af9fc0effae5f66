//! How the run of a list of choices fails.
ghost use Rattle.std.specs.Prelude.{◌≡◌, IfOk};
ghost use Rattle.cmd_shrink.specs.Failure.{failure_after, failure_of, failure_otherwise, harts_after};

use crate::breaking::broken_property;
use crate::failure::{Failure, failure_of};
use image::Image;
use machine::{Choice, Inputs};
use object_library::Kind;
use outcome::{Exit, Expect};
use property_judge::Property;
use run_hangs::{hangs_after, machine_after, steps_for};
use std::alloc::{AllocError, Allocator};

// How the run of a list of choices fails at its end.
fn failure_at_end<A: Allocator + Copy>(
    alloc: A,
    rule: Option<Kind>,
    image: &Image<A>,
    inputs: &Inputs,
    choices: &[Choice],
) -> Result<Option<Failure>, AllocError>
    ensures { IfOk result (λ failure. failure
        ≡ failure_of rule inputs.now choices.now (harts_after image.now inputs.now choices.now)) }
{
    let machine = machine_after(alloc, image, inputs, choices)?;
    Ok(failure_of(rule, inputs.words(), choices, machine.ends()))
}

// How the run of a list of choices fails where it breaks no property: at its end, or else, if each
// hart must exit, it hangs.
fn failure_otherwise<A: Allocator + Copy>(
    alloc: A,
    expect: Expect,
    image: &Image<A>,
    inputs: &Inputs,
    choices: &[Choice],
) -> Result<Option<Failure>, AllocError>
    ensures { IfOk result (λ failure. failure
        ≡ failure_otherwise expect image.now inputs.now choices.now) }
{
    if let Some(how) = failure_at_end(alloc, expect.rule, image, inputs, choices)? {
        return Ok(Some(how));
    }
    let steps = steps_for(choices.len());
    match expect.exit {
        Exit::May => Ok(None),
        Exit::Must => {
            if hangs_after(alloc, image, inputs, choices, steps)? {
                Ok(Some(Failure::Hangs { steps }))
            } else {
                Ok(None)
            }
        }
    }
}

/// How the run of a list of choices fails, from an image's start: it breaks a property, of which
/// the first counts; or else under a rule if its verdict is `Broken`, and without one if a hart has
/// faulted, of which the lowest counts; or else, if each hart must exit, it hangs for as many
/// further steps as the list has choices, and at least `FEWEST_STEPS`.
pub fn failure_after<A: Allocator + Copy>(
    alloc: A,
    expect: Expect,
    properties: &[Property],
    image: &Image<A>,
    inputs: &Inputs,
    choices: &[Choice],
) -> Result<Option<Failure>, AllocError>
    ensures { IfOk result (λ failure. failure
        ≡ failure_after expect properties.now image.now inputs.now choices.now) }
{
    match broken_property(alloc, properties, image, inputs, choices)? {
        Some(property) => Ok(Some(Failure::BrokenProperty(property))),
        None => failure_otherwise(alloc, expect, image, inputs, choices),
    }
}
