//! Hints for a person at a terminal beside a fault: what is wrong, where, and what to write
//! instead. Files are read again for them. If that fails, or is out of memory, there are none.

use crate::audience::Audience;
use crate::run_choices::RunChoices;
use clap::error::ErrorKind;
use cli_args::LineFault;
use hint_fault::{Explained, all_still_run, file_words, item_at, run_advice};
use hint_text::{Mistake, order_advice};
use program_open::{CommandFault, ProgramForm};
use std::rt::Files;
use std::{fs, io};

/// The files of a run, as the command line names them, and the number of its harts.
#[derive(Clone, Copy)]
pub struct RunFiles<'a> {
    /// The program's file and its form.
    pub program: &'a str,
    pub form: ProgramForm,
    /// Where the choices or the history are; an empty text if there are none.
    pub choices: RunChoices<'a>,
    /// Number of inputs.
    pub harts: usize,
}

impl<'a> RunFiles<'a> {
    /// An ELF file alone, and the number of its harts.
    pub fn of_program(program: &'a str, harts: usize) -> RunFiles<'a> {
        RunFiles {
            program,
            form: ProgramForm::Elf,
            choices: RunChoices::Held {
                text: b"",
                name: "",
            },
            harts,
        }
    }
}

/// The bytes of a file, if it is a regular one.
pub fn read_again<R: Files + AllocGlobal>(rt: &R, path: &str) -> Option<Vec<u8>> {
    let about = fs::metadata(rt, path).ok()?;
    if !about.is_file() {
        return None;
    }
    fs::read(rt, path).ok()
}

/// Shows whole lines.
pub fn show(rt: &impl Eprint, text: &str) {
    // If standard error is closed, nobody sees it.
    let _ = eprint!(rt; "{text}");
}

/// Explains how a program's run under a choice text ends, and which clause of a rule it breaks.
/// `None` if there is no such run.
pub fn explain_ends<R: AllocGlobal + Eprint>(
    rt: &R,
    form: ProgramForm,
    program: &[u8],
    inputs: &[u32],
    choices: &[u8],
    explained: Explained,
) -> Option<()> {
    let text = run_advice(rt.alloc(), form, program, inputs, choices, explained)?;
    show(rt, &text);
    Some(())
}

/// Whether all harts still run at the end of a program's run under a choice text. `None` if there is
/// no such run.
pub fn ends_running<R: AllocGlobal>(
    rt: &R,
    form: ProgramForm,
    program: &[u8],
    inputs: &[u32],
    choices: &[u8],
) -> Option<bool> {
    all_still_run(rt.alloc(), form, program, inputs, choices)
}

/// Explains why a command gives no answer.
pub fn explain_run<R: Files + AllocGlobal + Eprint>(
    rt: &R,
    audience: Audience,
    files: RunFiles<'_>,
    fault: CommandFault,
) {
    if !audience.is_told() {
        return;
    }
    match fault {
        CommandFault::Elf(_) | CommandFault::BadWord(_) | CommandFault::TooMany(_) => {
            let _ = told_of_program(rt, files, fault);
        }
        CommandFault::NoHarts => show(
            rt,
            "there is a hart for each input: write one at least, as --inputs 7,9\n",
        ),
        CommandFault::TooManyHarts => {
            let harts = files.harts;
            let _ = eprintln!(rt;
                "there is a hart for each input: {harts} are given, and 32 are the most"
            );
        }
        CommandFault::BadChoice(offset) => {
            let _ = told_of_choice(rt, files, offset);
        }
        CommandFault::NoHart(offset) | CommandFault::NoHartOfEntry(offset) => {
            let _ = told_of_hart(rt, files.choices, files.harts, offset);
        }
        CommandFault::BadEntry(offset) => {
            let _ = told_of_entry(rt, files.choices, offset);
        }
        CommandFault::Undecided(_) => show(
            rt,
            "fewer harts have fewer worlds, and --worlds takes a larger number; campaign tries single schedules\n",
        ),
        CommandFault::NothingFails
        | CommandFault::ThreadRefused
        | CommandFault::Stale
        | CommandFault::StampsExhausted
        | CommandFault::Unmatched
        | CommandFault::OutOfOrder
        | CommandFault::Read(_)
        | CommandFault::Write
        | CommandFault::Memory => {}
    }
}

// The hints on a file that isn't a program.
fn told_of_program<R: Files + AllocGlobal + Eprint>(
    rt: &R,
    files: RunFiles<'_>,
    fault: CommandFault,
) -> Option<()> {
    let path = files.program;
    let bytes = read_again(rt, path)?;
    match fault {
        CommandFault::Elf(fault) => {
            let words = file_words(fault, &bytes)?;
            eprintln!(rt; "{path}: {words}").ok()
        }
        CommandFault::BadWord(index) => {
            if bytes.starts_with(b"\x7fELF") {
                return eprintln!(rt; "{path}: this is an ELF file: leave --hex away").ok();
            }
            let text = str::from_utf8(&bytes).ok()?;
            let item = text.split_ascii_whitespace().nth(index)?;
            eprintln!(rt;
                "{path}: {item} is no word: write eight hexadecimal digits, without 0x, and blanks between words"
            ).ok()
        }
        _ => eprintln!(rt;
            "{path}: 2048 words are the most: assemble a longer program, by rvcons asm --out"
        ).ok(),
    }
}

// The hints on an item that isn't a choice.
fn told_of_choice<R: Files + AllocGlobal + Eprint>(
    rt: &R,
    files: RunFiles<'_>,
    offset: usize,
) -> Option<()> {
    let path = files.choices.name();
    let bytes = files.choices.again(rt)?;
    let item = item_at(&bytes, offset);
    let last = files.harts.saturating_sub(1);
    eprintln!(rt;
        "{path}: '{item}' at byte {offset} is no choice: write a hart's number from 0 to {last}, ! behind it to refuse a store-conditional, \
         and *N behind that to do it N times; blanks between"
    )
    .ok()
}

// The hints on an item that names a hart that doesn't exist.
fn told_of_hart<R: Files + AllocGlobal + Eprint>(
    rt: &R,
    choices: RunChoices<'_>,
    harts: usize,
    offset: usize,
) -> Option<()> {
    let path = choices.name();
    let bytes = choices.again(rt)?;
    let item = item_at(&bytes, offset);
    let last = harts.saturating_sub(1);
    eprintln!(rt;
        "{path}: '{item}' at byte {offset} names no hart: there is one for each input, numbered from 0 to {last}"
    ).ok()
}

// The hints on an item that isn't an entry.
fn told_of_entry<R: Files + AllocGlobal + Eprint>(
    rt: &R,
    choices: RunChoices<'_>,
    offset: usize,
) -> Option<()> {
    let path = choices.name();
    let bytes = choices.again(rt)?;
    let item = item_at(&bytes, offset);
    eprintln!(rt;
        "{path}: '{item}' at byte {offset} is no entry: a history is what rvcons threads --history writes, as 1+3, hart 1 with three steps of its own \
         and one more"
    )
    .ok()
}

/// Explains why a file can't be opened or read.
pub(crate) fn explain_path(rt: &impl Eprint, audience: Audience, path: &str, error: &io::Error) {
    if !audience.is_told() {
        return;
    }
    let why = match error.kind() {
        io::ErrorKind::NotFound => "there is no such file here, or no such folder",
        io::ErrorKind::PermissionDenied => "the system doesn't let you: see its rights, by ls -l",
        io::ErrorKind::IsADirectory => "this is a folder",
        _ => return,
    };
    let _ = eprintln!(rt; "{path}: {why}");
}

/// Explains why a command line gives no order.
pub fn explain_line<R: AllocGlobal + Eprint>(
    rt: &R,
    audience: Audience,
    words: &[&str],
    fault: &LineFault,
) {
    if !audience.is_told() {
        return;
    }
    let mistake = match fault {
        LineFault::NoCommand => Mistake::NoCommand,
        LineFault::Told(error) => match error.kind() {
            ErrorKind::DisplayHelp | ErrorKind::DisplayVersion => return,
            ErrorKind::InvalidSubcommand => Mistake::Command,
            ErrorKind::UnknownArgument => Mistake::Option,
            _ => Mistake::Other,
        },
        _ => return,
    };
    if let Ok(text) = order_advice(rt.alloc(), mistake, words) {
        show(rt, &text);
    }
}
