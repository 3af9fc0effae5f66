//! The command `schedule`.

use clap::ArgMatches;
use cli_args::{is_set, text_of};

/// `schedule --harts N --steps M [--seed S] [--turns] [--only H] [--schedule KIND] [--within N]
/// [--refusals never|one-in:N] [--inputs L] [FILE]`: prints the choice text of a seed, of turns, or of one hart
/// alone.
#[derive(Drop)]
pub struct ScheduleOrder<'a> {
    /// The number of harts.
    pub harts: &'a str,
    /// The number of choices.
    pub steps: &'a str,
    /// The seed of the choices.
    pub seed: Option<&'a str>,
    /// Whether the harts take turns.
    pub turns: bool,
    /// The hart that takes all steps.
    pub only: Option<&'a str>,
    /// How the seed draws its choices.
    pub draw: Option<&'a str>,
    /// Within how many steps the harts' priorities change.
    pub within: Option<&'a str>,
    /// How often they refuse a store-conditional.
    pub refusals: Option<&'a str>,
    /// The harts' inputs, if the choices are those of a run.
    pub inputs: Option<&'a str>,
    /// The path of that run's program.
    pub file: Option<&'a str>,
}

/// The order in clap's matches.
pub(crate) fn schedule_order<'a>(matches: &ArgMatches<'a>) -> Option<ScheduleOrder<'a>> {
    Some(ScheduleOrder {
        harts: text_of(matches, "harts")?,
        steps: text_of(matches, "steps")?,
        seed: text_of(matches, "seed"),
        turns: is_set(matches, "turns"),
        only: text_of(matches, "only"),
        draw: text_of(matches, "schedule"),
        within: text_of(matches, "within"),
        refusals: text_of(matches, "refusals"),
        inputs: text_of(matches, "inputs"),
        file: text_of(matches, "FILE"),
    })
}
