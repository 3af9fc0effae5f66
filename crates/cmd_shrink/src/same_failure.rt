//! Tests whether the runs of lists of choices fail in one way.
ghost use Rattle.cmd_shrink.specs.Failure.{RunFailsSo};

use crate::Failing;
use crate::breaking::breaks_property;
use crate::failure::{Failure, breaks_rule, has_faulted_at};
use image::Image;
use machine::{Choice, Inputs};
use run_hangs::{hangs_after, machine_after};
use std::alloc::{AllocError, Allocator};

/// Tests whether the runs of lists of choices, from an image's start, fail in one way.
#[derive(Drop)]
pub struct SameFailure<'a, A: Allocator> {
    /// The allocator for the runs.
    pub alloc: A,
    /// The image.
    pub image: &'a Image<A>,
    /// The harts' inputs.
    pub inputs: &'a Inputs,
    /// The way to fail.
    pub failure: Failure,
}

impl<'a, A: Allocator + Copy> Failing for SameFailure<'a, A> {
    ghost fails = { λ t choices. RunFailsSo t.failure t.image.now t.inputs.now choices };

    fn is_failing(&self, choices: &[Choice]) -> Result<bool, AllocError> {
        match self.failure {
            Failure::BrokenProperty(property) => {
                breaks_property(self.alloc, property, self.image, self.inputs, choices)
            }
            Failure::Broken(kind) => {
                let machine = machine_after(self.alloc, self.image, self.inputs, choices)?;
                Ok(breaks_rule(kind, self.inputs.words(), choices, machine.ends()))
            }
            Failure::Faulted { number, cause, pc } => {
                let machine = machine_after(self.alloc, self.image, self.inputs, choices)?;
                Ok(has_faulted_at(machine.ends(), number, cause, pc))
            }
            Failure::Hangs { steps } => {
                hangs_after(self.alloc, self.image, self.inputs, choices, steps)
            }
        }
    }
}
