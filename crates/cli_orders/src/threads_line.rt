//! The command `threads`.

use clap::ArgMatches;
use cli_args::{is_set, text_of};

/// What harts lock for a step on shared state.
#[derive(Clone, Copy, PartialEq, Eq)]
pub enum Locks {
    /// One lock for all memory.
    One,
    /// A lock for each bank of memory.
    Banks,
}

/// `threads FILE --inputs L --budget N [--total M] [--refuse P] [--history OUT] [--rule K]
/// [--must-exit] [--banked]`: runs each hart in a thread of its own, writes the history of the run,
/// and prints each hart's end and, with a rule, its verdict.
#[derive(Drop)]
pub struct ThreadsOrder<'a> {
    /// The program's path.
    pub file: &'a str,
    /// The harts' inputs.
    pub inputs: &'a str,
    /// The greatest number of choices of each hart.
    pub budget: &'a str,
    /// The greatest number of choices of all harts together.
    pub total: Option<&'a str>,
    /// The pairs of harts and their choices whose store-conditionals are refused.
    pub refuse: Option<&'a str>,
    /// The path of the history to write.
    pub history: Option<&'a str>,
    /// The name of the object whose rule is judged.
    pub rule: Option<&'a str>,
    /// Whether a hart that still runs at the end makes the run fail.
    pub must_exit: bool,
    /// What harts lock.
    pub locks: Locks,
}

// What harts lock, by clap's matches.
fn locks_of<'a>(matches: &ArgMatches<'a>) -> Locks {
    if is_set(matches, "banked") {
        Locks::Banks
    } else {
        Locks::One
    }
}

/// The order in clap's matches.
pub(crate) fn threads_order<'a>(matches: &ArgMatches<'a>) -> Option<ThreadsOrder<'a>> {
    Some(ThreadsOrder {
        file: text_of(matches, "FILE")?,
        inputs: text_of(matches, "inputs")?,
        budget: text_of(matches, "budget")?,
        total: text_of(matches, "total"),
        refuse: text_of(matches, "refuse"),
        history: text_of(matches, "history"),
        rule: text_of(matches, "rule"),
        must_exit: is_set(matches, "must-exit"),
        locks: locks_of(matches),
    })
}
