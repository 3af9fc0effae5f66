//! The command `trace`.

use clap::ArgMatches;
use cli_args::{ChoiceText, choice_text_of, is_set, text_of};

/// `trace [--hex] FILE --inputs L (--choices C | --list T) [--from A] [--to B] [--table] [--shared]
/// [--word W]`: prints what each choice of a run did.
#[derive(Drop)]
pub struct TraceOrder<'a> {
    /// Whether the file has words in hexadecimal.
    pub hex: bool,
    /// The program's path.
    pub file: &'a str,
    /// The harts' inputs.
    pub inputs: &'a str,
    /// Where the choice text is.
    pub choices: ChoiceText<'a>,
    /// The number of the first traced choice, counted from 0.
    pub from: Option<&'a str>,
    /// The number of the choice before which the trace ends.
    pub to: Option<&'a str>,
    /// Whether a table is printed instead of lines of JSON.
    pub table: bool,
    /// Whether only the rows of that table are printed whose instruction accesses memory.
    pub shared: bool,
    /// The word whose accesses alone are printed: a symbol with or without an offset, or an address.
    pub word: Option<&'a str>,
}

/// The order in clap's matches.
pub(crate) fn trace_order<'a>(matches: &ArgMatches<'a>) -> Option<TraceOrder<'a>> {
    Some(TraceOrder {
        hex: is_set(matches, "hex"),
        file: text_of(matches, "FILE")?,
        inputs: text_of(matches, "inputs")?,
        choices: choice_text_of(matches)?,
        from: text_of(matches, "from"),
        to: text_of(matches, "to"),
        table: is_set(matches, "table"),
        shared: is_set(matches, "shared"),
        word: text_of(matches, "word"),
    })
}
