//! Arguments of commands, and their values in clap's matches.

use crate::commands::{CommandRow, Schedule};
use crate::help::{
    CHOICES, CHOICES_OR_INPUT, DRAW, EXPLAINED, HISTORY_OF_CHOICES, LIST, REFUSALS, SEED, STEPS,
    TURNS, WITHIN,
};
use clap::{Arg, ArgAction, ArgGroup, ArgMatches, Command};
use std::alloc::{AllocError, Global};

/// An argument of a command: its name, and its help text.
#[derive(Clone, Copy)]
pub(crate) enum Argument {
    /// A required word.
    Needed(&'static str, &'static str),
    /// The name of an object of the library, a required word; its help lists the names.
    Object(&'static str),
    /// An optional word.
    Allowed(&'static str, &'static str),
    /// One or more words.
    Many(&'static str, &'static str),
    /// An optional option with a value.
    Optional(&'static str, &'static str),
    /// An optional option with a value, which has a letter too.
    Lettered(&'static str, char, &'static str),
    /// An optional option with a value that needs another option: the names of both.
    With(&'static str, &'static str, &'static str),
    /// A required option with a value.
    NeededOption(&'static str, &'static str),
    /// An option with a value that is required unless another option is given: the names of both.
    NeededUnless(&'static str, &'static str, &'static str),
    /// An option without a value.
    Flag(&'static str, &'static str),
}

// An option with a value.
fn option_of<'a>(alloc: Global, id: &'a str, help: &'a str) -> Arg<'a> {
    Arg::new(alloc, id).long(id).help(help)
}

// The argument as clap takes it. `objects` are the names of the library's objects.
fn arg_of<'a>(alloc: Global, argument: Argument, objects: &'a str) -> Result<Arg<'a>, AllocError> {
    let arg = match argument {
        Argument::Needed(id, help) => Arg::new(alloc, id).required(true).help(help),
        Argument::Object(id) => Arg::new(alloc, id).required(true).help(objects),
        Argument::Allowed(id, help) => Arg::new(alloc, id).help(help),
        Argument::Many(id, help) => Arg::new(alloc, id)
            .required(true)
            .action(ArgAction::Append)
            .help(help),
        Argument::Optional(id, help) => option_of(alloc, id, help),
        Argument::Lettered(id, letter, help) => option_of(alloc, id, help).short(letter),
        Argument::With(id, other, help) => { option_of(alloc, id, help).requires_arg(other)? }
        Argument::NeededOption(id, help) => option_of(alloc, id, help).required(true),
        Argument::NeededUnless(id, other, help) => {
            option_of(alloc, id, help).required_unless_present(other)?
        }
        Argument::Flag(id, help) => Arg::new(alloc, id)
            .long(id)
            .action(ArgAction::SetTrue)
            .help(help),
    };
    Ok(arg)
}

/// The option that each command has.
pub(crate) const EXPLAIN: &str = "explain";

// The options that name the choices of a run, but for `--choices`.
static NAMED: [Argument; 8] = [
    Argument::Optional("list", LIST),
    Argument::With("seed", "steps", SEED),
    Argument::Optional("turns", TURNS),
    Argument::Optional("history", HISTORY_OF_CHOICES),
    Argument::With("steps", "seed", STEPS),
    Argument::With("schedule", "seed", DRAW),
    Argument::With("within", "seed", WITHIN),
    Argument::With("refusals", "seed", REFUSALS),
];

fn named() -> &'static [Argument] {
    &NAMED
}

// The command with an argument.
fn with_argument<'a>(
    alloc: Global,
    command: Command<'a>,
    argument: Argument,
    objects: &'a str,
) -> Result<Command<'a>, AllocError> {
    let arg = arg_of(alloc, argument, objects)?;
    command.arg(arg)
}

// The command with these arguments.
fn with_arguments<'a>(
    alloc: Global,
    command: Command<'a>,
    arguments: &[Argument],
    objects: &'a str,
) -> Result<Command<'a>, AllocError> {
    let mut command = command;
    'arguments: for argument in arguments {
        command = with_argument(alloc, command, *argument, objects)?;
    }
    Ok(command)
}

// The options that name the choices of a run, of which exactly one is given.
fn schedules<'a>(alloc: Global) -> Result<ArgGroup<'a>, AllocError> {
    ArgGroup::new(alloc, "schedules")
        .required(true)
        .arg("choices")?
        .arg("list")?
        .arg("seed")?
        .arg("turns")?
        .arg("history")
}

// The command with the options that name the choices of a run, of which exactly one is given; and
// with those that say how a seed draws them.
fn with_choices<'a>(
    alloc: Global,
    command: Command<'a>,
    choices: &'static str,
) -> Result<Command<'a>, AllocError> {
    let command = command.arg(option_of(alloc, "choices", choices))?;
    let command = with_arguments(alloc, command, named(), "")?;
    let group = schedules(alloc)?;
    command.group(group)
}

// The command with the options that name the choices of its run.
fn with_schedule<'a>(
    alloc: Global,
    command: Command<'a>,
    schedule: Schedule,
) -> Result<Command<'a>, AllocError> {
    match schedule {
        Schedule::None => Ok(command),
        Schedule::File => with_choices(alloc, command, CHOICES),
        Schedule::FileOrInput => with_choices(alloc, command, CHOICES_OR_INPUT),
    }
}

/// The command as clap takes it. `objects` are the names of the library's objects.
pub(crate) fn command_of<'a>(
    alloc: Global,
    row: &CommandRow,
    objects: &'a str,
) -> Result<Command<'a>, AllocError> {
    let command = Command::new(alloc, row.name)
        .about(row.does)
        .after_help(row.example);
    let command = with_arguments(alloc, command, row.arguments, objects)?;
    let command = with_schedule(alloc, command, row.schedule)?;
    command.arg(option_of(alloc, EXPLAIN, EXPLAINED))
}

/// The text of an argument.
pub fn text_of<'a>(matches: &ArgMatches<'a>, id: &str) -> Option<&'a str> {
    matches.get_str(id)
}

/// The texts of a repeated argument.
pub fn texts_of<'a>(
    alloc: Global,
    matches: &ArgMatches<'a>,
    id: &str,
) -> Result<Option<Vec<&'a str>>, AllocError> {
    match matches.get_strs(id) {
        None => Ok(None),
        Some(texts) => Ok(Some(Vec::from_slice(alloc, texts)?)),
    }
}

/// Whether an option without a value is given.
pub fn is_set<'a>(matches: &ArgMatches<'a>, id: &str) -> bool {
    matches.get_flag(id)
}
