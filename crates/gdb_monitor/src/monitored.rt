//! The answers of commands.

use std::alloc::Allocator;

/// Whether a command has moved.
#[derive(Clone, Copy, PartialEq, Eq)]
pub enum Motion {
    /// It has moved: what was read of the run before may be another's.
    Moved,
    /// It has not moved.
    Stayed,
}

/// The answer of a command.
#[derive(Drop)]
pub struct Monitored<A: Allocator> {
    /// The lines to show, each ended by LF.
    pub text: String<A>,
    /// Whether the command has moved.
    pub motion: Motion,
}
