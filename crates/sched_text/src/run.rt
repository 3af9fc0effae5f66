//! Runs of equal choices.

use machine::Choice;

/// The greatest count of an item.
pub const MOST_EQUAL: u32 = 16_777_216;

/// A number of equal choices.
#[derive(Clone, Copy, PartialEq, Eq)]
pub struct Run {
    /// The choice.
    pub choice: Choice,
    /// Number of equal choices: 1 to `MOST_EQUAL` in a text.
    pub count: u32,
}
