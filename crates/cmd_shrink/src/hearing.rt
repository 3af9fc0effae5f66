//! The trait by which a shrinking reports its progress.

use byte_io::Unheard;

/// Receives the progress of a shrinking. It changes no answer.
pub trait ChoicesLeft {
    /// `left` choices are left.
    fn choices_left(&mut self, left: usize);

    /// The list is minimal, with `needed` choices: called once, at the end.
    fn choices_needed(&mut self, needed: usize);
}

impl ChoicesLeft for Unheard {
    fn choices_left(&mut self, _left: usize) {}

    fn choices_needed(&mut self, _needed: usize) {}
}
