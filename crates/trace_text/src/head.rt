//! What the head line of a trace tells.

use hart_step::Hart;

/// Which choices are told, by their places in the list, counted from 0.
#[derive(Clone, Copy, PartialEq, Eq)]
pub struct Span {
    /// The first.
    pub from: u64,
    /// One more than the last; the same as `from` where none is told.
    pub to: u64,
}

/// A hart as it is before the first choice that is told.
#[derive(Clone, Copy, PartialEq, Eq)]
pub struct HartThen {
    /// The hart.
    pub hart: Hart,
    /// The address of the word that it has reserved.
    pub reserved: Option<u32>,
}
