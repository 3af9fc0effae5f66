//! The command `replay`.

use clap::ArgMatches;
use cli_args::{is_set, text_of};

/// `replay FILE --inputs L --history H [--rule K] [--must-exit]`: runs a program under a history, and
/// prints what the run with that history printed.
#[derive(Drop)]
pub struct ReplayOrder<'a> {
    /// The program's path.
    pub file: &'a str,
    /// The harts' inputs.
    pub inputs: &'a str,
    /// The history text's path.
    pub history: &'a str,
    /// The name of the object whose rule is judged.
    pub rule: Option<&'a str>,
    /// Whether a hart that still runs at the end makes the run fail.
    pub must_exit: bool,
}

/// The order in clap's matches.
pub(crate) fn replay_order<'a>(matches: &ArgMatches<'a>) -> Option<ReplayOrder<'a>> {
    Some(ReplayOrder {
        file: text_of(matches, "FILE")?,
        inputs: text_of(matches, "inputs")?,
        history: text_of(matches, "history")?,
        rule: text_of(matches, "rule"),
        must_exit: is_set(matches, "must-exit"),
    })
}
