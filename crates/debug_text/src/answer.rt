//! The answer of a command.

use std::alloc::Allocator;

/// The answer of a command.
#[derive(Drop)]
pub enum Answer<A: Allocator> {
    /// The lines to show, each ended by LF; empty for a blank line.
    Text(String<A>),
    /// The session ends, and nothing is shown.
    Quit,
}
