//! Whether a list of choices breaks what a word must be, or leads two harts into a section.
ghost use Rattle.std.specs.Prelude.{◌≡◌, ◌<◌, None, IfOk, length};
ghost use Rattle.std.specs.List.{All};
ghost use Rattle.machine.specs.Start.{started};
ghost use Rattle.property_judge.specs.Broken.{first_broken};
ghost use Rattle.cmd_explore.specs.Explore.{section_broken, word_broken};

use explore_space::{Always, Section};
use image::Image;
use machine::{Choice, Inputs, Machine, Stopped};
use mem_flat::FlatStore;
use property_judge::{Judged, Property, judge_run};
use std::alloc::{AllocError, Allocator};

// A property that is not yet judged.
fn unjudged(property: Property) -> Judged
    ensures property { result.property ≡ property }
    ensures broken { result.broken ≡ None }
{
    Judged {
        property,
        broken: None,
    }
}

// After how many choices of a list a property first doesn't hold, 0 at the start; `None` if it
// always does.
fn first_break<A: Allocator + Copy>(
    alloc: A,
    image: &Image<A>,
    inputs: &Inputs,
    property: Property,
    choices: &[Choice],
) -> Result<Option<usize>, AllocError>
    requires { All (λ c. c.hart < length inputs.now) choices.now }
    ensures { IfOk result (λ broken. broken ≡ first_broken property (started image.now inputs.now) choices.now) }
{
    let mut judged = [unjudged(property)];
    let mut machine: Machine<FlatStore<A>, A> = Machine::start(alloc, image, inputs)?;
    match judge_run(&mut machine, choices, &mut judged) {
        Ok(()) => Ok(judged[0].broken),
        Err(Stopped { .. }) => Err(AllocError),
    }
}

/// After how many choices of a list a word first isn't what it must be, 0 at the start, if that is
/// asked; `None` if it always is. The only error is out of memory.
pub(crate) fn word_broken<A: Allocator + Copy>(
    alloc: A,
    image: &Image<A>,
    inputs: &Inputs,
    always: Option<Always>,
    choices: &[Choice],
) -> Result<Option<usize>, AllocError>
    requires { All (λ c. c.hart < length inputs.now) choices.now }
    ensures { IfOk result (λ broken. broken ≡ word_broken always (started image.now inputs.now) choices.now) }
{
    let Some(always) = always else {
        return Ok(None);
    };
    let property = Property::Always {
        word: always.word,
        comparison: always.comparison,
        number: always.number,
    };
    first_break(alloc, image, inputs, property, choices)
}

/// After how many choices of a list two harts first stand in a section at once, 0 at the start, if
/// that is asked; `None` if they never do. The only error is out of memory.
pub(crate) fn section_broken<A: Allocator + Copy>(
    alloc: A,
    image: &Image<A>,
    inputs: &Inputs,
    section: Option<Section>,
    choices: &[Choice],
) -> Result<Option<usize>, AllocError>
    requires { All (λ c. c.hart < length inputs.now) choices.now }
    ensures { IfOk result (λ broken. broken ≡ section_broken section (started image.now inputs.now) choices.now) }
{
    let Some(section) = section else {
        return Ok(None);
    };
    let property = Property::NeverBoth {
        from: section.from,
        to: section.to,
    };
    first_break(alloc, image, inputs, property, choices)
}
