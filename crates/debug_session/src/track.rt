//! A run with a checkpoint at each interval.
ghost use Rattle.std.specs.Prelude.{◌≡◌, ◌<◌, ◌+◌, ◌/◌, All, length, vec_len};
ghost use Rattle.machine.specs.Start.{started};
ghost use Rattle.debug_session.specs.Kept.{AreKept};

use crate::paged_machine::PagedMachine;
use image::Image;
use machine::{Choice, Inputs};
use std::alloc::Allocator;

/// The number of choices between two checkpoints.
pub const BLOCK: usize = 256;

/// An image, the harts' inputs, a list of choices, and the machine at each checkpoint: after 0,
/// 256, 512, .. choices. It never changes.
#[derive(Drop)]
pub struct Track<A: Allocator + Copy> {
    pub(crate) image: Image<A>,
    pub(crate) inputs: Inputs,
    pub(crate) choices: Vec<Choice, A>,
    pub(crate) checkpoints: Vec<PagedMachine<A>, A>,
    ghost harts: { All (λ c. c.hart < length inputs) choices.items },
    ghost kept: { AreKept (started image inputs) choices.items checkpoints.items },
    ghost whole: { vec_len checkpoints ≡ vec_len choices / 256 + 1 },
}
