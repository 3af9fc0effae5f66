//! The hints on a command line.

use crate::names::nearest;
use crate::options::{COMMANDS, OTHER_COMMANDS, OTHER_OPTIONS, Row};
use crate::sentence::Part::{First, Second, Words};
use crate::sentence::{Form, Sentence, push_sentence};
use crate::table::told_of;
use std::alloc::{AllocError, Allocator};

// A name with a smaller edit distance may be the intended one.
const EDITS: usize = 3;

// The options of each command.
const EVERYWHERE: [&str; 3] = ["--explain", "--help", "-h"];

// No command is given.
const NO_COMMAND: Form = &[Words(
    "a command stands first, as rvcons run prog.elf --inputs 7,9 --choices turns.choices\n",
)];

// A command of another tool, and its name here.
const CALLED: Form = &[
    First,
    Words(" is called "),
    Second,
    Words(" here: see rvcons "),
    Second,
    Words(" --help\n"),
];

// A command is near.
const MEANT: Form = &[Words("is "), First, Words(" meant?\n")];

// No command is near.
const THE_COMMANDS: Form = &[
    Words("the commands are "),
    First,
    Words("; a file stands behind the command\n"),
];

// No hint.
const NOTHING: Form = &[];

// The hint on an option of another tool.
const TOLD: Form = &[First, Words("\n")];

// An option is near, with an example.
const MEANT_AS: Form = &[
    Words("is "),
    First,
    Words(" meant? As "),
    Second,
    Words("\n"),
];

// A number with a sign.
const SIGNED: Form = &[
    First,
    Words(" is no option, and numbers have no sign: as "),
    Second,
    Words("\n"),
];

// An example.
const AS: Form = &[Words("as "), First, Words("\n")];

/// What is wrong with a command line.
#[derive(Clone, Copy)]
pub enum Mistake {
    /// No command is given.
    NoCommand,
    /// The command doesn't exist.
    Command,
    /// The command doesn't have an option, or a word is too much.
    Option,
    /// Another fault, such as a missing option or value.
    Other,
}

/// The hints on a command line, whose first word is the program's name, as whole lines: what to
/// write for a name of another tool, the nearest name, or an example of the command.
pub fn order_advice<A: Allocator + Copy>(
    alloc: A,
    mistake: Mistake,
    words: &[&str],
) -> Result<String<A>, AllocError> {
    let commands = list_of(alloc, &COMMANDS)?;
    let sentence = order_sentence(alloc, mistake, words, &commands)?;
    let mut text = String::new(alloc);
    push_sentence(&mut text, &sentence)?;
    Ok(text)
}

// The names of commands, with commas between them and `and` before the last.
fn list_of<A: Allocator>(alloc: A, rows: &[Row]) -> Result<String<A>, AllocError> {
    let mut text = String::new(alloc);
    'rows: for (place, row) in rows.iter().enumerate() {
        let between = match (place, rows.len() - place) {
            (0, _) => "",
            (_, 1) => " and ",
            _ => ", ",
        };
        text.push_str(between)?;
        text.push_str(row.name)?;
    }
    Ok(text)
}

// The hint on a command line; `commands` lists the commands.
fn order_sentence<'a, A: Allocator + Copy>(
    alloc: A,
    mistake: Mistake,
    words: &[&'a str],
    commands: &'a str,
) -> Result<Sentence<'a>, AllocError> {
    match (mistake, words) {
        (Mistake::Command, [_, name, ..]) => command_sentence(alloc, *name, commands),
        (Mistake::Option, [_, name, rest @ ..]) => option_sentence(alloc, *name, rest),
        (Mistake::Other, [_, name, ..]) => Ok(example_of(*name)),
        (Mistake::NoCommand, _) => Ok(Sentence::of(NO_COMMAND, "")),
        _ => Ok(Sentence::of(NOTHING, "")),
    }
}

// The first row with this name.
fn row_in<'a>(rows: &'a [Row], name: &str) -> Option<&'a Row> {
    'rows: for row in rows {
        if row.name == name {
            return Some(row);
        }
    }
    None
}

// The row of a command.
fn row_of(name: &str) -> Option<&'static Row> {
    row_in(&COMMANDS, name)
}

// The names of commands.
fn names_of<'a, A: Allocator + Copy>(
    alloc: A,
    rows: &'a [Row],
) -> Result<Vec<&'a str, A>, AllocError> {
    let mut names = Vec::new(alloc);
    'rows: for row in rows {
        names.push(row.name)?;
    }
    Ok(names)
}

// The command whose name is nearest.
fn near_command<A: Allocator + Copy>(
    alloc: A,
    name: &str,
) -> Result<Option<&'static str>, AllocError> {
    let known = names_of(alloc, &COMMANDS)?;
    nearest(alloc, &known, name, EDITS)
}

// The command that has this name in another tool.
fn other_command(name: &str) -> Option<&'static str> {
    told_of(&OTHER_COMMANDS, name)
}

// The hint on a command that doesn't exist; `commands` lists those that do.
fn command_sentence<'a, A: Allocator + Copy>(
    alloc: A,
    name: &'a str,
    commands: &'a str,
) -> Result<Sentence<'a>, AllocError> {
    if let Some(other) = other_command(name) {
        return Ok(Sentence::of_two(CALLED, name, other));
    }
    Ok(match near_command(alloc, name)? {
        Some(near) => Sentence::of(MEANT, near),
        None => Sentence::of(THE_COMMANDS, commands),
    })
}

// An example of a command.
fn example_of(name: &str) -> Sentence<'static> {
    match row_of(name) {
        Some(row) => Sentence::of(AS, row.example),
        None => Sentence::of(NOTHING, ""),
    }
}

// The word up to `=`.
fn option_name(word: &str) -> &str {
    word.split('=').next().unwrap_or(word)
}

fn is_one_of(names: &[&str], name: &str) -> bool {
    names.contains(&name)
}

// The first option among words that a command doesn't have.
fn other_option<'a>(options: &[&str], words: &[&'a str]) -> Option<&'a str> {
    'words: for word in words {
        let name = option_name(*word);
        if name.starts_with("-") && !is_one_of(options, name) && !is_one_of(&EVERYWHERE, name) {
            return Some(name);
        }
    }
    None
}

// The hint on an option that a command doesn't have.
fn option_sentence<'a, A: Allocator + Copy>(
    alloc: A,
    command: &str,
    words: &[&'a str],
) -> Result<Sentence<'a>, AllocError> {
    let Some(row) = row_of(command) else {
        return Ok(Sentence::of(NOTHING, ""));
    };
    match other_option(row.options, words) {
        Some(name) => name_sentence(alloc, row, name),
        None => Ok(Sentence::of(AS, row.example)),
    }
}

// The hint on an option of another tool.
fn meaning_of(name: &str) -> Option<&'static str> {
    told_of(&OTHER_OPTIONS, name)
}

// Whether a word is a number with a sign in front.
fn is_signed(word: &str) -> bool {
    match word.as_bytes() {
        [b'-', digit, ..] => digit.is_ascii_digit(),
        _ => false,
    }
}

// The hint on the name of an option that a command doesn't have.
fn name_sentence<'a, A: Allocator + Copy>(
    alloc: A,
    row: &'static Row,
    name: &'a str,
) -> Result<Sentence<'a>, AllocError> {
    if let Some(what) = meaning_of(name) {
        return Ok(Sentence::of(TOLD, what));
    }
    if is_signed(name) {
        return Ok(Sentence::of_two(SIGNED, name, row.example));
    }
    Ok(match nearest(alloc, row.options, name, EDITS)? {
        Some(near) => Sentence::of_two(MEANT_AS, near, row.example),
        None => Sentence::of(AS, row.example),
    })
}
