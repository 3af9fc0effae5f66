//! The command `run`.

use crate::arguments::{is_set, text_of};
use crate::choice_text::{ChoiceText, choice_text_of};
use clap::ArgMatches;

/// `run [--hex] FILE --inputs L SCHEDULE [--rule K] [--must-exit] [--hangs] [--never-both R]
/// [--always P] [--json]`: runs a program under a schedule, and prints each hart's end, with a rule
/// its verdict, for each property whether it was kept, and with `--hangs` whether the run hangs.
#[derive(Drop)]
pub struct RunOrder<'a> {
    /// Whether the file has words in hexadecimal.
    pub hex: bool,
    /// The program's path.
    pub file: &'a str,
    /// The harts' inputs.
    pub inputs: &'a str,
    /// Where the choice text is.
    pub choices: ChoiceText<'a>,
    /// The name of the object whose rule is judged.
    pub rule: Option<&'a str>,
    /// Whether a run that leaves a hart running has failed.
    pub must_exit: bool,
    /// Whether it is decided if the run hangs.
    pub hangs: bool,
    /// The range of addresses in which no two harts may be at once.
    pub never_both: Option<&'a str>,
    /// What a word of memory must be after each choice.
    pub always: Option<&'a str>,
    /// Whether an object of JSON is printed in place of lines.
    pub json: bool,
}

impl<'a> RunOrder<'a> {
    /// Whether properties are judged.
    pub fn has_properties(&self) -> bool {
        self.never_both.is_some() || self.always.is_some()
    }
}

/// The order in clap's matches.
pub fn run_order<'a>(matches: &ArgMatches<'a>) -> Option<RunOrder<'a>> {
    Some(RunOrder {
        hex: is_set(matches, "hex"),
        file: text_of(matches, "FILE")?,
        inputs: text_of(matches, "inputs")?,
        choices: choice_text_of(matches)?,
        rule: text_of(matches, "rule"),
        must_exit: is_set(matches, "must-exit"),
        hangs: is_set(matches, "hangs"),
        never_both: text_of(matches, "never-both"),
        always: text_of(matches, "always"),
        json: is_set(matches, "json"),
    })
}
