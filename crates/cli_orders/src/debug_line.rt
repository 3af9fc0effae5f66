//! The commands `debug` and `gdb`.

use clap::ArgMatches;
use cli_args::{ChoiceText, choice_text_of, text_of};

/// `debug FILE --inputs L (--choices C | --list T)`: does the commands of standard input, which
/// move forward and back in a run. `gdb` has the same arguments, and does the packets of GDB.
#[derive(Drop)]
pub struct DebugOrder<'a> {
    /// The program's path.
    pub file: &'a str,
    /// The harts' inputs.
    pub inputs: &'a str,
    /// Where the choice text is.
    pub choices: ChoiceText<'a>,
}

/// The order in clap's matches.
pub(crate) fn debug_order<'a>(matches: &ArgMatches<'a>) -> Option<DebugOrder<'a>> {
    Some(DebugOrder {
        file: text_of(matches, "FILE")?,
        inputs: text_of(matches, "inputs")?,
        choices: choice_text_of(matches)?,
    })
}
