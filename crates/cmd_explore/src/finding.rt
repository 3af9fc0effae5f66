//! What is found of every schedule.

use byte_io::Status;
use std::alloc::Allocator;

/// What is found of all schedules.
#[derive(Clone, Copy)]
pub enum Finding {
    /// None fails or hangs.
    Holds,
    /// A list fails, of so many turns: a choice, and the local steps of its hart behind it. No list
    /// of fewer choices fails.
    Fails(usize),
    /// None fails, and a list hangs, of so many turns: it leads to a world that has no way out. No
    /// list of fewer choices hangs.
    Hangs(usize),
}

/// The answer.
#[derive(Drop)]
pub struct Explored<A: Allocator> {
    /// Where no schedule fails or hangs a line with the number of worlds, and behind it the lines of
    /// how runs end, and of harts' bounds where they are asked for; else a choice text that does.
    /// Or an object of JSON with the same facts.
    pub text: Vec<u8, A>,
    /// `Done` where no schedule fails or hangs; `Faulted` where one hangs; where one fails, `Broken`
    /// if it breaks what a word must be or leads two harts into the section, and else `Broken` under
    /// a rule, and `Faulted` without one.
    pub status: Status,
    /// After how many choices of the list the word isn't what it must be, if it fails by that.
    pub broken: Option<usize>,
    /// After how many choices of the list two harts first stand in the section, if it fails by that.
    pub both: Option<usize>,
    /// Whether the text is that of a list that fails or hangs.
    pub finding: Finding,
}
