//! The command `campaign`.

use clap::ArgMatches;
use cli_args::{is_set, text_of};

/// `campaign FILE --inputs L --first S --count C --steps N [--rule K] [--failures]
/// [--until-failure] [--summary] [--outcomes] [--word W] [--by-cause] [--schedule KIND]
/// [--within N] [--refusals never|one-in:N] [--must-exit] [--hangs] [--never-both R] [--always P]
/// [--jobs J] [--seconds N] [--json]`:
/// runs a program under a random schedule for each of C seeds from S on, and prints a line for each, with a
/// rule also its verdict; or the lines of bad seeds alone, or of the first of them, or how many seeds
/// end in which way. With `--preemptions K [--choices-of N]` it does so for every schedule with at most K
/// preemptions.
#[derive(Drop)]
pub struct CampaignOrder<'a> {
    /// The program's path.
    pub file: &'a str,
    /// The harts' inputs.
    pub inputs: &'a str,
    /// The first seed or schedule; always there without `preemptions`.
    pub first: Option<&'a str>,
    /// The number of seeds or schedules; always there without `preemptions`.
    pub count: Option<&'a str>,
    /// The number of steps for each seed.
    pub steps: &'a str,
    /// The name of the object whose rule is judged.
    pub rule: Option<&'a str>,
    /// Whether the lines of bad seeds alone are printed.
    pub failures: bool,
    /// Whether the first bad seed ends the campaign, and its line alone is printed.
    pub until_failure: bool,
    /// Whether only the number of seeds with each outcome is printed.
    pub summary: bool,
    /// Whether outcomes also differ by the harts' results.
    pub outcomes: bool,
    /// Whether outcomes also differ by the cause and the place of each fault.
    pub by_cause: bool,
    /// The words of memory that outcomes also differ by: symbols with or without an offset, or
    /// addresses, with commas between them.
    pub word: Option<&'a str>,
    /// How the choices of a seed are drawn.
    pub draw: Option<&'a str>,
    /// Within how many steps the harts' priorities change.
    pub within: Option<&'a str>,
    /// How often they refuse a store-conditional.
    pub refusals: Option<&'a str>,
    /// Whether a run that leaves a hart running has failed.
    pub must_exit: bool,
    /// Whether it is decided of each run if it hangs.
    pub hangs: bool,
    /// The addresses between which no two harts may be at once.
    pub never_both: Option<&'a str>,
    /// What a word of memory has to be after each choice.
    pub always: Option<&'a str>,
    /// How many threads may do runs at a time.
    pub jobs: Option<&'a str>,
    /// After how many seconds the campaign ends.
    pub seconds: Option<&'a str>,
    /// How many preemptions a schedule has at most, in place of seeds.
    pub preemptions: Option<&'a str>,
    /// The schedule whose choices alone are printed.
    pub choices_of: Option<&'a str>,
    /// Whether each line is an object of JSON.
    pub json: bool,
}

impl<'a> CampaignOrder<'a> {
    /// Whether properties of one's own are judged.
    pub fn has_properties(&self) -> bool {
        self.never_both.is_some() || self.always.is_some()
    }

    /// Whether its options may name symbols of the program.
    pub fn names_symbols(&self) -> bool {
        self.has_properties() || self.word.is_some()
    }
}

/// The order in clap's matches.
pub(crate) fn campaign_order<'a>(matches: &ArgMatches<'a>) -> Option<CampaignOrder<'a>> {
    Some(CampaignOrder {
        file: text_of(matches, "FILE")?,
        inputs: text_of(matches, "inputs")?,
        first: text_of(matches, "first"),
        count: text_of(matches, "count"),
        steps: text_of(matches, "steps")?,
        rule: text_of(matches, "rule"),
        failures: is_set(matches, "failures"),
        until_failure: is_set(matches, "until-failure"),
        summary: is_set(matches, "summary"),
        outcomes: is_set(matches, "outcomes"),
        by_cause: is_set(matches, "by-cause"),
        word: text_of(matches, "word"),
        draw: text_of(matches, "schedule"),
        within: text_of(matches, "within"),
        refusals: text_of(matches, "refusals"),
        must_exit: is_set(matches, "must-exit"),
        hangs: is_set(matches, "hangs"),
        never_both: text_of(matches, "never-both"),
        always: text_of(matches, "always"),
        jobs: text_of(matches, "jobs"),
        seconds: text_of(matches, "seconds"),
        preemptions: text_of(matches, "preemptions"),
        choices_of: text_of(matches, "choices-of"),
        json: is_set(matches, "json"),
    })
}
