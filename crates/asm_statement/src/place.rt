//! The place of a statement.
use crate::statement::Section;

/// The place of a statement: its source, its line, and its section.
#[derive(Clone, Copy, PartialEq, Eq)]
pub struct Place {
    /// The source's index, from 0.
    pub source: usize,
    /// The line, from 1.
    pub line: usize,
    pub section: Section,
}
