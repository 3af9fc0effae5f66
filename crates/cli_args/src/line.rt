//! Matches the command line by clap.

use crate::arguments::{EXPLAIN, command_of, text_of};
use crate::commands::{CommandRow, commands};
use crate::explain::explain_of;
use crate::run_line::{RunOrder, run_order};
use clap::error::ErrorKind;
use clap::{ArgMatches, Command};
use std::alloc::{AllocError, Global};

/// Why a command line gives no order.
#[derive(Drop)]
pub enum LineFault {
    /// The line is invalid, or asks for help or the version: clap's text.
    Told(clap::Error),
    /// No command is named.
    NoCommand,
    /// The inputs aren't decimal numbers below 2^32 with commas between them.
    BadInputs,
    /// The plan isn't pairs of a hart and the number of its choice, two decimal numbers below 2^32
    /// each, with commas between them.
    BadPlan,
    /// `--explain` has another value than `auto`, `always` and `never`.
    BadExplain,
    /// A number isn't written in decimal digits, or is too large.
    BadNumber,
    /// The library has no object with this name.
    BadObject,
    /// Out of memory.
    Memory,
}

// The program without its commands.
fn bare_program<'a>(alloc: Global) -> Command<'a> {
    Command::new(alloc, "rvcons")
        .version("1.0.0")
        .about("Shows what RISC-V machine code of several harts does under a named schedule")
        .after_help("`rvcons run --help` shows a command's options and an example; so for each.")
}

// The program with these commands.
fn program<'a>(
    alloc: Global,
    commands: &[&CommandRow],
    objects: &'a str,
) -> Result<Command<'a>, AllocError> {
    let mut program = bare_program(alloc);
    'commands: for command in commands {
        program = program.subcommand(command_of(alloc, command, objects)?)?;
    }
    Ok(program)
}

// Whether a command's `--explain`, if it is given, has one of its values.
fn explains<'a>(matches: &ArgMatches<'a>) -> bool {
    let Some((_, found)) = matches.subcommand() else {
        return true;
    };
    match text_of(found, EXPLAIN) {
        Some(value) => explain_of(value).is_some(),
        None => true,
    }
}

/// Clap's matches for the words, the first of which is the program's name. Help lists the library's
/// objects by `objects`, their names.
pub fn match_line<'a>(
    alloc: Global,
    words: &'a [&'a str],
    objects: &'a str,
) -> Result<ArgMatches<'a>, LineFault> {
    let Ok(command) = program(alloc, &commands(), objects) else {
        return Err(LineFault::Memory);
    };
    match command.try_get_matches_from(words) {
        Ok(matches) if explains(&matches) => Ok(matches),
        Ok(_) => Err(LineFault::BadExplain),
        Err(error) if error.kind() == ErrorKind::OutOfMemory => Err(LineFault::Memory),
        Err(error) => Err(LineFault::Told(error)),
    }
}

/// The order of `run` that the words give, the first of which is the program's name; `None` if they
/// give another command. Help lists the library's objects by `objects`, their names.
pub fn read_run<'a>(
    alloc: Global,
    words: &'a [&'a str],
    objects: &'a str,
) -> Result<Option<RunOrder<'a>>, LineFault> {
    let matches = match_line(alloc, words, objects)?;
    let Some((name, found)) = matches.subcommand() else {
        return Err(LineFault::NoCommand);
    };
    if name != "run" {
        return Ok(None);
    }
    match run_order(found) {
        Some(order) => Ok(Some(order)),
        None => Err(LineFault::NoCommand),
    }
}
