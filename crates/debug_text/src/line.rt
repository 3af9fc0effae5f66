//! Parses lines as commands.
ghost use Rattle.std.specs.Prelude.{◌≡◌, ◌≢◌, ◌≤◌, Ok, Err, IfOk, IfErr, OnErr, length};
ghost use Rattle.std.specs.List.{prefix_len, position_or_len};
ghost use Rattle.debug_session.specs.Session.{session};
ghost use Rattle.debug_text.specs.Words.{is_space, next_word, behind_word, line_words};
ghost use Rattle.debug_text.specs.Commands.{command_of, line_command};
ghost use Rattle.debug_text.specs.Reply.{reply_to, reply_outcome};

use crate::answer::Answer;
use crate::commands::{Command, command_by, is_word, registers_command};
use crate::fault::DebugFault;
use crate::replies::obey;
use debug_session::Debugger;
use elf_read::Symbol;
use std::alloc::Allocator;

// Number of spaces at the front.
fn space_len(line: &[u8]) -> usize
    ensures count { result ≡ prefix_len is_space line.now }
    ensures within { result ≤ length line.now }
{
    line.iter().take_while(|byte| **byte == b' ').count()
}

// Number of bytes before the first space.
fn word_len(line: &[u8]) -> usize
    ensures count { result ≡ position_or_len is_space line.now }
    ensures within { result ≤ length line.now }
{
    line.iter().take_while(|byte| **byte != b' ').count()
}

/// The first word of a line, empty if there is none, and the rest after it.
pub fn next_word(line: &[u8]) -> (&[u8], &[u8])
    ensures word { result.0.now ≡ next_word line.now }
    ensures behind { result.1.now ≡ behind_word line.now }
{
    let (_, rest) = line.split_at(space_len(line));
    rest.split_at(word_len(rest))
}

// The command of a line's first three words, with the word behind them and the rest of the line
// behind the second word.
fn line_command<A: Allocator>(
    symbols: &[Symbol<A>],
    name: &[u8],
    first: &[u8],
    second: &[u8],
    more: &[u8],
    names: &[u8],
) -> Result<Command, DebugFault>
    ensures { result ≡ line_command symbols.now name.now first.now second.now more.now (line_words names.now) }
{
    if !second.is_empty() && is_word(name, "regs") {
        return registers_command(first, names);
    }
    if !more.is_empty() {
        return Err(DebugFault::BadCommand);
    }
    command_by(symbols, name, first, second)
}

/// The command of a line without its end, or why it is none. Words are separated by spaces.
/// Addresses may be given as symbols of the program, which are these.
#[tactic(auto, unfolding(crate::specs::Commands::command_of))]
pub fn read_command<A: Allocator>(symbols: &[Symbol<A>], line: &[u8]) -> Result<Command, DebugFault>
    ensures { result ≡ command_of symbols.now line.now }
{
    let (name, rest) = next_word(line);
    let (first, names) = next_word(rest);
    let (second, rest) = next_word(names);
    let (more, _) = next_word(rest);
    line_command(symbols, name, first, second, more, names)
}

/// Does the command of a line without its end, and returns its text. Addresses may be given as
/// symbols of the program, which are these. After a fault nothing has changed.
#[tactic(auto, unfolding(crate::specs::Reply::reply_to))]
pub fn command<A: Allocator + Copy>(
    alloc: A,
    debugger: &mut Debugger<A>,
    symbols: &[Symbol<A>],
    line: &str,
) -> Result<Answer<A>, DebugFault>
    ensures ok { IfOk result (λ answer. reply_to symbols.now (session debugger.old) line.now
        ≡ Ok (reply_outcome answer (session debugger.new))) }
    ensures unchanged { OnErr result (session debugger.new ≡ session debugger.old) }
    ensures fault { IfErr result (λ fault. fault ≢ DebugFault.Memory
        → reply_to symbols.now (session debugger.old) line.now ≡ Err fault) }
{
    let command = read_command(symbols, line.as_bytes())?;
    obey(alloc, debugger, symbols, command)
}
