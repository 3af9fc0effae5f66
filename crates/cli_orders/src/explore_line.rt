//! The command `explore`.

use clap::ArgMatches;
use cli_args::{is_set, text_of};

/// `explore FILE --inputs L [--rule K] [--refusals never] [--worlds N] [--must-exit] [--never-both R]
/// [--always P] [--bounds] [--json]`: decides whether some schedule fails.
#[derive(Drop)]
pub struct ExploreOrder<'a> {
    /// The program's path.
    pub file: &'a str,
    /// The harts' inputs.
    pub inputs: &'a str,
    /// The name of the object whose rule is judged.
    pub rule: Option<&'a str>,
    /// Whether store-conditionals that could succeed are refused too.
    pub refusals: Option<&'a str>,
    /// The most worlds that are looked at.
    pub worlds: Option<&'a str>,
    /// Whether each world must have a way out.
    pub must_exit: bool,
    /// The range of addresses in which no two harts may ever be at once.
    pub never_both: Option<&'a str>,
    /// What a word must be at the start and after each choice.
    pub always: Option<&'a str>,
    /// Whether the bounds on harts' own steps are printed.
    pub bounds: bool,
    /// Whether an object of JSON is printed in place of lines.
    pub json: bool,
}

impl<'a> ExploreOrder<'a> {
    /// Whether properties of one's own are judged.
    pub fn has_properties(&self) -> bool {
        self.never_both.is_some() || self.always.is_some()
    }
}

/// The order in clap's matches.
pub(crate) fn explore_order<'a>(matches: &ArgMatches<'a>) -> Option<ExploreOrder<'a>> {
    Some(ExploreOrder {
        file: text_of(matches, "FILE")?,
        inputs: text_of(matches, "inputs")?,
        rule: text_of(matches, "rule"),
        refusals: text_of(matches, "refusals"),
        worlds: text_of(matches, "worlds"),
        must_exit: is_set(matches, "must-exit"),
        never_both: text_of(matches, "never-both"),
        always: text_of(matches, "always"),
        bounds: is_set(matches, "bounds"),
        json: is_set(matches, "json"),
    })
}
