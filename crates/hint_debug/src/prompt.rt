//! The prompt.

use std::fmt;

/// The prompt at a position, shown as `3 of 26> `.
#[derive(Clone, Copy)]
pub struct Prompt {
    /// Number of choices done.
    pub position: usize,
    /// Number of choices.
    pub length: usize,
}

impl fmt::Display for Prompt {
    ghost use Rattle.std.specs.Prelude.{Some};
    ghost use Rattle.hint_debug.specs.Prompt.{prompt};

    ghost output = { λ p. Some (prompt p.position p.length) };

    fn fmt<W: fmt::Write>(&self, f: &mut fmt::Formatter<W>) -> fmt::Result {
        let position = self.position;
        let length = self.length;
        write!(f, "{position} of {length}> ")
    }
}
