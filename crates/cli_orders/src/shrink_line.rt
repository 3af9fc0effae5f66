//! The command `shrink`.

use clap::ArgMatches;
use cli_args::{ChoiceText, choice_text_of, is_set, text_of};

/// `shrink FILE --inputs L (--choices C | --list T) [--rule K] [--must-exit] [--never-both R]
/// [--always P]`: prints a minimal choice text under which a program fails as it does under the given
/// one.
#[derive(Drop)]
pub struct ShrinkOrder<'a> {
    /// The program's path.
    pub file: &'a str,
    /// The harts' inputs.
    pub inputs: &'a str,
    /// Where the choice text is.
    pub choices: ChoiceText<'a>,
    /// The name of the object whose rule is judged.
    pub rule: Option<&'a str>,
    /// Whether a run that hangs has failed.
    pub must_exit: bool,
    /// The addresses between which no two harts may be at once.
    pub never_both: Option<&'a str>,
    /// What a word of memory has to be after each choice.
    pub always: Option<&'a str>,
}

impl<'a> ShrinkOrder<'a> {
    /// Whether properties of one's own are judged.
    pub fn has_properties(&self) -> bool {
        self.never_both.is_some() || self.always.is_some()
    }
}

/// The order in clap's matches.
pub(crate) fn shrink_order<'a>(matches: &ArgMatches<'a>) -> Option<ShrinkOrder<'a>> {
    Some(ShrinkOrder {
        file: text_of(matches, "FILE")?,
        inputs: text_of(matches, "inputs")?,
        choices: choice_text_of(matches)?,
        rule: text_of(matches, "rule"),
        must_exit: is_set(matches, "must-exit"),
        never_both: text_of(matches, "never-both"),
        always: text_of(matches, "always"),
    })
}
