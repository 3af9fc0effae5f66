//! The start of a debugger.
ghost use Rattle.std.specs.Prelude.{◌≡◌, ◌<◌, [], All, length, IfOk};
ghost use Rattle.debug_session.specs.Session.{session};
ghost use Rattle.debug_session.specs.Points.{no_words};

use crate::checkpoints::checkpoints_of;
use crate::debugger::Debugger;
use crate::paged_machine::PagedMachine;
use crate::points::Points;
use crate::telling::tell_end;
use crate::track::Track;
use byte_io::{Progress, Unheard};
use image::Image;
use machine::{Choice, Inputs, Machine};
use std::alloc::{AllocError, Allocator};

impl<A: Allocator + Copy> Debugger<A> {
    /// A debugger at the start, without breakpoints and watches. It keeps the image, the inputs and
    /// the choices, and runs the choices once for its checkpoints. Fails when out of memory.
    pub fn new(
        alloc: A,
        image: Image<A>,
        inputs: Inputs,
        choices: Vec<Choice, A>,
    ) -> Result<Debugger<A>, AllocError>
        requires { All (λ c. c.hart < length inputs) choices.items }
        ensures start { IfOk result (λ d. session d ≡ record {
          image = image;
          inputs = inputs;
          choices = choices.items;
          position = 0;
          breaks = [];
          watches = no_words;
        }) }
        ensures unmoved { IfOk result (λ d. d.cost ≡ 0) }
    {
        Debugger::new_with_progress(alloc, image, inputs, choices, &mut Unheard)
    }

    /// `new`, with reports of progress on a long run: at each 1,048,576th choice, and at its end.
    pub fn new_with_progress(
        alloc: A,
        image: Image<A>,
        inputs: Inputs,
        choices: Vec<Choice, A>,
        progress: &mut impl Progress,
    ) -> Result<Debugger<A>, AllocError>
        requires { All (λ c. c.hart < length inputs) choices.items }
        ensures start { IfOk result (λ d. session d ≡ record {
          image = image;
          inputs = inputs;
          choices = choices.items;
          position = 0;
          breaks = [];
          watches = no_words;
        }) }
        ensures unmoved { IfOk result (λ d. d.cost ≡ 0) }
    {
        let first: PagedMachine<A> = Machine::start(alloc, &image, &inputs)?;
        let checkpoints = checkpoints_of(alloc, &first, &choices, progress)?;
        tell_end(progress, choices.len());
        let track = Track {
            image,
            inputs,
            choices,
            checkpoints,
        };
        Ok(Debugger {
            track,
            position: 0,
            cost: 0,
            machine: first,
            points: Points::new(alloc),
        })
    }
}
