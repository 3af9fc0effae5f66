//! Where a run's choices are: the options that name its schedule.

use crate::arguments::text_of;
use clap::ArgMatches;

/// What names the choices of a run.
#[derive(Clone, Copy)]
pub enum ChoiceText<'a> {
    /// `--choices C`: they are in the file of this path.
    File(&'a str),
    /// `--choices -`: they are on standard input.
    Input,
    /// `--list T`: this is their text.
    List(&'a str),
    /// `--seed S --steps M`: a seed draws them.
    Seed(SeedText<'a>),
    /// `--turns M`: the harts take turns, for so many choices.
    Turns(&'a str),
    /// `--history H`: they are those of the history in the file of this path.
    History(&'a str),
}

/// The texts of the options of a seed's choices.
#[derive(Clone, Copy)]
pub struct SeedText<'a> {
    /// The seed.
    pub seed: &'a str,
    /// Number of choices.
    pub steps: &'a str,
    /// How they are drawn.
    pub draw: Option<&'a str>,
    /// Within how many steps the harts' priorities change.
    pub within: Option<&'a str>,
    /// How often they refuse a store-conditional.
    pub refusals: Option<&'a str>,
}

impl<'a> ChoiceText<'a> {
    /// What reports call them: the path of their file, or the option that names them.
    pub fn name(self) -> &'a str {
        match self {
            ChoiceText::File(path) | ChoiceText::History(path) => path,
            ChoiceText::Input => "-",
            ChoiceText::List(_) => "--list",
            ChoiceText::Seed(_) => "--seed",
            ChoiceText::Turns(_) => "--turns",
        }
    }
}

// The choices that `--choices` names.
fn named_by_path<'a>(path: &'a str) -> ChoiceText<'a> {
    if path == "-" {
        ChoiceText::Input
    } else {
        ChoiceText::File(path)
    }
}

// The choices of a seed in clap's matches.
fn seed_text_of<'a>(matches: &ArgMatches<'a>) -> Option<ChoiceText<'a>> {
    Some(ChoiceText::Seed(SeedText {
        seed: text_of(matches, "seed")?,
        steps: text_of(matches, "steps")?,
        draw: text_of(matches, "schedule"),
        within: text_of(matches, "within"),
        refusals: text_of(matches, "refusals"),
    }))
}

/// What names the choices in clap's matches; `None` if nothing does.
pub fn choice_text_of<'a>(matches: &ArgMatches<'a>) -> Option<ChoiceText<'a>> {
    if let Some(path) = text_of(matches, "choices") {
        return Some(named_by_path(path));
    }
    if let Some(text) = text_of(matches, "list") {
        return Some(ChoiceText::List(text));
    }
    if let Some(steps) = text_of(matches, "turns") {
        return Some(ChoiceText::Turns(steps));
    }
    if let Some(path) = text_of(matches, "history") {
        return Some(ChoiceText::History(path));
    }
    seed_text_of(matches)
}
