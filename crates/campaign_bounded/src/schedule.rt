//! A schedule that was taken.

use machine::{Choice, Machine};
use std::alloc::Allocator;

/// A schedule, and the machine after it.
#[derive(Drop)]
pub struct Schedule<S, A: Allocator> {
    /// The choices, from the program's start on.
    pub choices: Vec<Choice, A>,
    /// The machine that they have led to.
    pub machine: Machine<S, A>,
}
