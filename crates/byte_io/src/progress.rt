//! The trait by which a long command reports how far it is.

/// Receives the progress of a command. It changes no answer. Methods for other kinds of commands
/// can be left out.
pub trait Progress {
    /// `_done` seeds of a campaign are done, and the runs of `_bad` of them have failed.
    fn seeds_done(&mut self, _done: u64, _bad: u64) {}

    /// `_done` of `_all` choices of a run are done. In the last call all are.
    fn choices_done(&mut self, _done: u64, _all: u64) {}

    /// `_done` worlds are looked at, of the `_found` that are known so far; `_depth` turns lead to
    /// the last of them, and no fewer.
    fn worlds_done(&mut self, _done: u64, _found: u64, _depth: u64) {}
}

/// Ignores all reports.
#[derive(Clone, Copy)]
pub struct Unheard;

impl Progress for Unheard {}
