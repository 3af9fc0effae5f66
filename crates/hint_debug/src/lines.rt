//! The hints on a typed line.

use crate::registers::{no_register, unnamed_register};
use debug_text::{Command, DebugFault, read_command};
use elf_read::Symbol;
use hint_fault::segment_at;
use hint_text::Part::{First, Second, Words};
use hint_text::{Form, Sentence, nearest, push_sentence, told_of};
use image::{Rights, Segment};
use isa_names::Word;
use std::alloc::{AllocError, Allocator};

// The operands of each command.
const TAKES: [(&[&str], &str); 11] = [
    (&["help", "where", "go", "rgo", "quit"], "stands alone"),
    (&["goto"], "takes a decimal number of choices, as goto 7"),
    (
        &["forward", "back"],
        "takes nothing, or a decimal number of choices, as forward 7",
    ),
    (&["step"], "takes the number of a hart, as step 1"),
    (&["break"], "takes an address, as break 0x00010008"),
    (
        &["watch", "rwatch", "awatch"],
        "takes an address, as watch 0x00011000",
    ),
    (&["delete"], "takes an address, as delete 0x00010008"),
    (
        &["steps"],
        "takes two decimal numbers of choices, as steps 0 7",
    ),
    (
        &["list"],
        "takes nothing, or the number of a hart, as list 1",
    ),
    (
        &["regs"],
        "takes the number of a hart, and the names of up to 33 registers, as regs 0 or regs 0 a0 pc",
    ),
    (
        &["mem"],
        "takes an address and a number of words, 1 to 64, as mem 0x00011000 4",
    ),
];

// A command and its operands.
const COMMAND_TAKES: Form = &[First, Words(" "), Second, Words("\n")];

// Another word than a command.
const THE_COMMANDS: Form = &[Words(
    "the commands are help, where, goto, forward, back, step, break, watch, rwatch, awatch, delete, go, rgo, steps, list, regs, mem and quit, in small letters\n",
)];

// A name that no symbol has, with and without the nearest one.
const NO_SYMBOL: Form = &[First, Words(" is no symbol of the program\n")];

const NEAR_SYMBOL: Form = &[
    First,
    Words(" is no symbol of the program: is "),
    Second,
    Words(" meant?\n"),
];

// A name that several symbols have.
const SEVERAL_SYMBOLS: Form = &[
    Words("several symbols are named "),
    First,
    Words(", at different addresses: write the address with 0x\n"),
];

// A symbol with a smaller edit distance may be the intended one.
const EDITS: usize = 3;

/// A word of a line by its number, from 0.
pub(crate) fn word_of(line: &str, number: usize) -> Option<&str> {
    line.split(' ').filter(|word| !word.is_empty()).nth(number)
}

// Whether a decimal address looks hexadecimal: with leading zeros, or with eight digits.
fn looks_hexadecimal(operand: &str) -> bool {
    operand.as_bytes().iter().all(|byte| byte.is_ascii_digit())
        && (operand.len() >= 8 || (operand.starts_with("0") && operand.len() > 1))
}

fn address_of(command: &Command) -> Option<u32> {
    match command {
        Command::Break(address)
        | Command::Watch { address, .. }
        | Command::Delete(address)
        | Command::Mem { address, .. } => Some(*address),
        _ => None,
    }
}

// Appends that an address was read as decimal, if it was and looks hexadecimal.
fn push_decimal<A: Allocator>(
    text: &mut String<A>,
    operand: &str,
    address: u32,
) -> Result<(), AllocError> {
    if !looks_hexadecimal(operand) {
        return Ok(());
    }
    let shown = Word(address);
    writeln!(
        text,
        "{operand} was read as a decimal number, which is {shown}: for a hexadecimal address write 0x{operand}"
    )
}

// Whether an address is executable.
fn is_code<A: Allocator>(segments: &[Segment<A>], address: u32) -> bool {
    match segment_at(segments, address) {
        Some(segment) => segment.rights.grants(Rights::EXECUTE),
        None => false,
    }
}

// Appends why no hart can reach a breakpoint.
fn push_unreached<A: Allocator>(
    text: &mut String<A>,
    segments: &[Segment<A>],
    address: u32,
) -> Result<(), AllocError> {
    let shown = Word(address);
    if address % 4 != 0 {
        writeln!(
            text,
            "no hart stops at {shown}: instructions begin at multiples of 4"
        )
    } else if !is_code(segments, address) {
        writeln!(
            text,
            "no hart executes {shown}: it is in no segment that may be executed; rvcons info shows them"
        )
    } else {
        Ok(())
    }
}

/// The hints on a line, as whole lines: that an address was read as decimal though it looks
/// hexadecimal, that no hart can reach a breakpoint, which name is no symbol or no register, or, if
/// it is no command, what the commands are; empty for other lines.
pub fn line_advice<A: Allocator + Copy>(
    alloc: A,
    segments: &[Segment<A>],
    symbols: &[Symbol<A>],
    line: &str,
) -> Result<String<A>, AllocError> {
    let mut text = String::new(alloc);
    match read_command(symbols, line.as_bytes()) {
        Ok(command) => push_read(&mut text, segments, line, command)?,
        Err(fault) => push_sentence(&mut text, &refused(alloc, symbols, line, fault)?)?,
    }
    Ok(text)
}

// Appends the hints on a line that is a command.
fn push_read<A: Allocator>(
    text: &mut String<A>,
    segments: &[Segment<A>],
    line: &str,
    command: Command,
) -> Result<(), AllocError> {
    if let (Some(operand), Some(address)) = (word_of(line, 1), address_of(&command)) {
        push_decimal(text, operand, address)?;
    }
    match &command {
        Command::Break(address) => push_unreached(text, segments, *address),
        _ => Ok(()),
    }
}

// The hint on a line that is no command.
fn refused<'a, A: Allocator + Copy>(
    alloc: A,
    symbols: &'a [Symbol<A>],
    line: &'a str,
    fault: DebugFault,
) -> Result<Sentence<'a>, AllocError> {
    match fault {
        DebugFault::NoSymbol => unnamed(alloc, symbols, name_in(line)),
        DebugFault::SeveralSymbols => Ok(Sentence::of(SEVERAL_SYMBOLS, name_in(line))),
        DebugFault::BadCommand | DebugFault::PastEnd | DebugFault::Memory => {
            match unnamed_register(line) {
                Some(name) => no_register(alloc, name),
                None => Ok(unread(word_of(line, 0).unwrap_or(""))),
            }
        }
    }
}

// The name in a line's first operand, without its offset.
fn name_in(line: &str) -> &str {
    let operand = word_of(line, 1).unwrap_or("");
    match operand.rsplit_once('+') {
        Some((name, _)) => name,
        None => operand,
    }
}

// The hint on a name that no symbol has.
fn unnamed<'a, A: Allocator + Copy>(
    alloc: A,
    symbols: &'a [Symbol<A>],
    name: &'a str,
) -> Result<Sentence<'a>, AllocError> {
    let mut names = Vec::new(alloc);
    'symbols: for symbol in symbols {
        names.push(symbol.name.as_str())?;
    }
    Ok(match nearest(alloc, &names, name, EDITS)? {
        Some(near) => Sentence::of_two(NEAR_SYMBOL, name, near),
        None => Sentence::of(NO_SYMBOL, name),
    })
}

// The hint on a line that is a bad command, by its first word.
fn unread<'a>(name: &'a str) -> Sentence<'a> {
    match told_of(&TAKES, name) {
        Some(takes) => Sentence::of_two(COMMAND_TAKES, name, takes),
        None => Sentence::of(THE_COMMANDS, ""),
    }
}
