//! The debugger at a terminal: a prompt, and hints beside each answer.

ghost use Rattle.std.specs.Prelude.{◌-◌, ◌^◌, ◌<◌};

use byte_io::{MemorySource, Progress, ReadFault, Source, Status, read_all};
use cmd_debug::{DebugEngineFault, open_session};
use debug_session::Debugger;
use debug_text::{Answer, Command, DebugFault, obey, read_command};
use elf_read::Symbol;
use hint_debug::{
    Before, GREETING, Prompt, line_advice, next_text, stops_text, watched_word, word_before,
};
use hint_fault::symbols_or_none;
use image::Image;
use program_named::{NamedRun, open_named};
use program_open::{CommandFault, Input as InputFile, ProgramForm, read_program};
use std::alloc::{AllocError, Global};
use std::io::{self, Input};

// The image and the symbols of a session's program, to name places in it.
#[derive(Drop)]
struct Names {
    image: Image<Global>,
    // Those that commands may name: all.
    named: Vec<Symbol<Global>>,
    // Those that are shown.
    shown: Vec<Symbol<Global>>,
}

// Whether more lines are read.
#[derive(Clone, Copy, PartialEq, Eq)]
enum Turn {
    Next,
    Last,
}

fn show(rt: &impl Print, text: &str) -> Result<(), DebugEngineFault> {
    match print!(rt; "{text}") {
        Ok(()) => Ok(()),
        Err(_) => Err(DebugEngineFault::Answers),
    }
}

/// Runs a session with a person: opens the run as for a program, and answers each line as it comes.
pub(crate) fn talk_to_person<R: AllocGlobal + Print + Input, P: Source, C: Source>(
    rt: &R,
    inputs: &[u32],
    program: &mut P,
    choices: &mut C,
    progress: &mut impl Progress,
) -> Result<Status, DebugEngineFault>
    requires program_counts { P.failures program.old < 2 ^ 64 - 1 }
    requires choices_count { C.failures choices.old < 2 ^ 64 - 1 }
{
    let bytes = match read_all(rt.alloc(), program) {
        Ok(bytes) => bytes,
        Err(ReadFault::Device) => {
            return Err(DebugEngineFault::Refused(CommandFault::Read(InputFile::File)));
        }
        Err(ReadFault::Memory) => return Err(DebugEngineFault::Memory),
    };
    let mut source = MemorySource::new(&bytes);
    let form = ProgramForm::Elf;
    let named = match open_named(rt.alloc(), form, inputs, &mut source, choices) {
        Ok(named) => named,
        Err(fault) => return Err(DebugEngineFault::Refused(fault)),
    };
    let NamedRun { opened, symbols } = named;
    let mut debugger = match open_session(rt.alloc(), opened, progress) {
        Ok(debugger) => debugger,
        Err(AllocError) => return Err(DebugEngineFault::Refused(CommandFault::Memory)),
    };
    let image = match read_program(rt.alloc(), form, &bytes) {
        Ok(image) => image,
        Err(fault) => return Err(DebugEngineFault::Refused(fault)),
    };
    let names = Names {
        image,
        named: symbols,
        shown: symbols_or_none(rt.alloc(), &bytes),
    };
    show(rt, GREETING)?;
    show_next(rt, &debugger, &names)?;
    answer_lines(rt, &mut debugger, &names)
}

// Answers lines until one ends the session or none is left.
fn answer_lines<R: AllocGlobal + Print + Input>(
    rt: &R,
    debugger: &mut Debugger<Global>,
    names: &Names,
) -> Result<Status, DebugEngineFault> {
    'lines: for _ in 0..u64::MAX {
        let (position, length) = (debugger.position(), debugger.choices().len());
        let prompt = Prompt { position, length };
        match print!(rt; "{prompt}") {
            Ok(()) => {}
            Err(_) => return Err(DebugEngineFault::Answers),
        }
        let mut line = String::new(rt.alloc());
        match rt.read_line(&mut line) {
            // The shell's prompt begins on a line of its own.
            Ok(0) => {
                show(rt, "\n")?;
                return Ok(Status::Done);
            }
            Ok(_) => {}
            Err(error) if error.kind() == io::ErrorKind::InvalidData => {}
            Err(_) => return Err(DebugEngineFault::Commands),
        }
        if answer_line(rt, debugger, names, line.trim_end())? == Turn::Last {
            return Ok(Status::Done);
        }
    }
    Ok(Status::Done)
}

// Answers a line as for a program, and shows hints beside it.
fn answer_line<R: AllocGlobal + Print>(
    rt: &R,
    debugger: &mut Debugger<Global>,
    names: &Names,
    line: &str,
) -> Result<Turn, DebugEngineFault> {
    let command = match read_command(&names.named, line.as_bytes()) {
        Ok(command) => command,
        Err(fault) => return refuse_line(rt, names, line, fault),
    };
    let Ok(before) = Before::of(rt.alloc(), debugger) else {
        return Err(DebugEngineFault::Memory);
    };
    match obey(rt.alloc(), debugger, &names.named, command) {
        Ok(Answer::Quit) => Ok(Turn::Last),
        Ok(Answer::Text(text)) => {
            show(rt, &text)?;
            show_advice(rt, names, line)?;
            if command == Command::Go {
                show_stops(rt, debugger, names, &before)?;
            }
            show_behind(rt, debugger, names, command, &text)?;
            Ok(Turn::Next)
        }
        Err(DebugFault::Memory) => Err(DebugEngineFault::Memory),
        Err(DebugFault::BadCommand) => {
            show(rt, "bad command\n")?;
            tell(rt, broken(debugger, command))?;
            Ok(Turn::Next)
        }
        Err(DebugFault::PastEnd) => {
            show(rt, "past end\n")?;
            tell(rt, exceeded(debugger, command))?;
            Ok(Turn::Next)
        }
        // A command has numbers in place of names.
        Err(fault @ (DebugFault::NoSymbol | DebugFault::SeveralSymbols)) => {
            refuse_line(rt, names, line, fault)
        }
    }
}

// Shows why a line is no command, with hints on it.
fn refuse_line<R: AllocGlobal + Print>(
    rt: &R,
    names: &Names,
    line: &str,
    fault: DebugFault,
) -> Result<Turn, DebugEngineFault> {
    match println!(rt; "{fault}") {
        Ok(()) => {}
        Err(_) => return Err(DebugEngineFault::Answers),
    }
    show_advice(rt, names, line)?;
    Ok(Turn::Next)
}

// A limit that a command has exceeded.
#[derive(Clone, Copy)]
enum Limit {
    // Number of harts.
    Harts(usize),
    // Number of words that are shown.
    Words,
    // Number of choices.
    Choices(usize),
    // A hart's last choice.
    LastOf(u64),
    // No choice is left.
    NoChoice,
}

// The limit that a bad command has exceeded.
fn broken(debugger: &Debugger<Global>, command: Command) -> Limit {
    match command {
        Command::Listing(_) | Command::Regs(_) | Command::Registers { .. } | Command::Step(_) =>
            Limit::Harts(debugger.machine().harts()),
        _ => Limit::Words,
    }
}

// The limit that a move past the end has exceeded.
fn exceeded(debugger: &Debugger<Global>, command: Command) -> Limit {
    match command {
        Command::Step(hart) => Limit::LastOf(hart),
        Command::Listing(_) => Limit::NoChoice,
        _ => Limit::Choices(debugger.choices().len()),
    }
}

// Reports a limit.
fn tell(rt: &impl Print, limit: Limit) -> Result<(), DebugEngineFault> {
    let told = match limit {
        Limit::Harts(1) => println!(rt; "there is one hart, with number 0"),
        Limit::Harts(harts) => {
            let last = harts.saturating_sub(1);
            println!(rt; "there are {harts} harts, numbered from 0 to {last}")
        }
        Limit::Words => println!(rt; "mem shows 1 to 64 words"),
        Limit::Choices(length) => println!(rt;
            "the schedule has {length} choices, so positions go from 0 to {length}"
        ),
        Limit::LastOf(hart) => println!(rt; "hart {hart} is not chosen from here on"),
        Limit::NoChoice => println!(rt; "no choice is left: name a hart, as list 0"),
    };
    match told {
        Ok(()) => Ok(()),
        Err(_) => Err(DebugEngineFault::Answers),
    }
}

// Shows the hints on a line.
fn show_advice<R: AllocGlobal + Print>(
    rt: &R,
    names: &Names,
    line: &str,
) -> Result<(), DebugEngineFault> {
    match line_advice(rt.alloc(), names.image.segments(), &names.named, line) {
        Ok(text) => show(rt, &text),
        Err(AllocError) => Err(DebugEngineFault::Memory),
    }
}

// Shows which hart comes next, and where.
fn show_next<R: AllocGlobal + Print>(
    rt: &R,
    debugger: &Debugger<Global>,
    names: &Names,
) -> Result<(), DebugEngineFault> {
    match next_text(rt.alloc(), debugger, &names.shown) {
        Ok(text) => show(rt, &text),
        Err(AllocError) => Err(DebugEngineFault::Memory),
    }
}

// Shows hints after an answer: the store that changed a watched word, and what comes next.
fn show_behind<R: AllocGlobal + Print>(
    rt: &R,
    debugger: &mut Debugger<Global>,
    names: &Names,
    command: Command,
    answer: &str,
) -> Result<(), DebugEngineFault> {
    match command {
        Command::Go | Command::Rgo => {
            if let Some(address) = watched_word(answer) {
                show_stored(rt, debugger, address)?;
            }
            show_next(rt, debugger, names)
        }
        Command::Where
        | Command::Goto(_)
        | Command::Forward(_)
        | Command::Back(_)
        | Command::Step(_) => show_next(rt, debugger, names),
        _ => Ok(()),
    }
}

// Shows which harts ran before and have stopped.
fn show_stops<R: AllocGlobal + Print>(
    rt: &R,
    debugger: &Debugger<Global>,
    names: &Names,
    before: &Before<Global>,
) -> Result<(), DebugEngineFault> {
    match stops_text(rt.alloc(), debugger, &names.shown, before) {
        Ok(text) => show(rt, &text),
        Err(AllocError) => Err(DebugEngineFault::Memory),
    }
}

// Shows the store that changed a watched word.
fn show_stored<R: AllocGlobal + Print>(
    rt: &R,
    debugger: &mut Debugger<Global>,
    address: u32,
) -> Result<(), DebugEngineFault> {
    match word_before(rt.alloc(), debugger, address) {
        Ok(Some(stored)) => match println!(rt; "{stored}") {
            Ok(()) => Ok(()),
            Err(_) => Err(DebugEngineFault::Answers),
        },
        Ok(None) => Ok(()),
        Err(_) => Err(DebugEngineFault::Memory),
    }
}
