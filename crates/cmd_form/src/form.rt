//! In which form a command answers.

/// The form of an answer. Both have the same facts.
#[derive(Clone, Copy, PartialEq, Eq)]
pub enum Form {
    /// Lines for a person.
    Text,
    /// An object of JSON on a line of its own.
    Json,
}
