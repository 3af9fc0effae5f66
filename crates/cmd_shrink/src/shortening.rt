//! The text of the minimal list.

ghost use Rattle.std.specs.Prelude.{◌≡◌, ◌<◌, None, Ok, IfOk, IfSome, length, string_bytes};
ghost use Rattle.std.specs.List.{All};
ghost use Rattle.machine.specs.Start.{IsStartable};
ghost use Rattle.cmd_shrink.specs.Failure.{failure_after};
ghost use Rattle.cmd_shrink.specs.Shrink.{IsShrunk};

use crate::run_failure::failure_after;
use crate::same_failure::SameFailure;
use crate::{ChoicesLeft, shrink_choices};
use image::Image;
use machine::{Choice, Inputs};
use outcome::Expect;
use property_judge::Property;
use sched_text::print_runs;
use std::alloc::{AllocError, Allocator};

/// The text of a minimal list of choices that fails as the given one does; `None` if that doesn't
/// fail.
pub(crate) fn shortened<A: Allocator + Copy, L: ChoicesLeft>(
    alloc: A,
    image: &Image<A>,
    inputs: &Inputs,
    expect: Expect,
    properties: &[Property],
    given: &[Choice],
    left: &mut L,
) -> Result<Option<String<A>>, AllocError>
    requires takes { IsStartable inputs.now }
    requires within { All (λ c. c.hart < length inputs.now) given.now }
    ensures shrunk { IfOk result (λ answer. IfSome answer (λ text.
        IsShrunk expect properties.now image.now inputs.now given.now (string_bytes text))) }
    ensures kept { result ≡ Ok None → failure_after expect properties.now image.now inputs.now given.now ≡ None }
{
    let Some(failure) = failure_after(alloc, expect, properties, image, inputs, given)? else {
        return Ok(None);
    };
    let test = SameFailure {
        alloc,
        image,
        inputs,
        failure,
    };
    let choices = shrink_choices(alloc, &test, given, left)?;
    let text = print_runs(alloc, &choices)?;
    Ok(Some(text))
}
