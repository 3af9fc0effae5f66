//! The debugger's commands.
ghost use Rattle.std.specs.Prelude.{◌≡◌};
ghost use Rattle.std.specs.Str.{bytes_eq};
ghost use Rattle.debug_text.specs.Addresses.{address_meant};
ghost use Rattle.debug_text.specs.Words.{line_words};
ghost use Rattle.debug_text.specs.Commands.{with_one, bare_command, single_command, double_command, command_by, registers_command};
ghost use Rattle.debug_text.specs.declared.commands.Command.TheVariants.{Watch};

use crate::address::{address_meant, count_in};
use crate::fault::DebugFault;
use crate::register_names::{RegisterList, registers_in};
use debug_session::WatchKind;
use elf_read::Symbol;
use std::alloc::Allocator;

/// A command. A number above 2^64 - 1 is capped at that: it is past every end.
#[derive(Clone, Copy, PartialEq, Eq)]
pub enum Command {
    /// A blank line.
    Nothing,
    /// `help`: lists the commands.
    Help,
    /// `where`: shows the position.
    Where,
    /// `goto K`: moves to position K.
    Goto(u64),
    /// `forward [N]`: moves N choices forward, 1 by default.
    Forward(u64),
    /// `back [N]`: moves N choices back, 1 by default.
    Back(u64),
    /// `step H`: moves behind the next choice of a hart.
    Step(u64),
    /// `break A`: adds a breakpoint at an address.
    Break(u32),
    /// `watch A`, `rwatch A`, `awatch A`: watches the aligned word that contains an address.
    Watch {
        /// What is watched of it.
        kind: WatchKind,
        /// The address.
        address: u32,
    },
    /// `delete A`: removes the breakpoint at an address, and the watches of its aligned word.
    Delete(u32),
    /// `go`: moves forward to the next stop, or to the end.
    Go,
    /// `rgo`: moves back to the previous stop, or to the start.
    Rgo,
    /// `steps A B`: shows the steps of the choices from A to B - 1.
    Steps {
        /// The first choice, from 0.
        from: u64,
        /// The choice after the last.
        to: u64,
    },
    /// `list [H]`: shows a hart's end and the instructions around its `pc`, by default those of the
    /// next choice's hart.
    Listing(Option<u64>),
    /// `regs H`: shows a hart's end and its registers.
    Regs(u64),
    /// `regs H NAME..`: shows these registers of a hart.
    Registers {
        /// The hart.
        hart: u64,
        /// The registers.
        list: RegisterList,
    },
    /// `mem A N`: shows N words from the aligned word on that contains an address.
    Mem {
        /// The address.
        address: u32,
        /// Number of words: 1 to 64, else the command is refused.
        count: u64,
    },
    /// `quit`: ends the session.
    Quit,
}

/// Whether a word is a given one.
pub(crate) fn is_word(name: &[u8], word: &str) -> bool
    ensures { result ≡ bytes_eq name.now word.now }
{
    name == word.as_bytes()
}

// The command of a single word.
fn bare_command(name: &[u8]) -> Result<Command, DebugFault>
    ensures { result ≡ bare_command name.now }
{
    if is_word(name, "where") {
        return Ok(Command::Where);
    }
    if is_word(name, "forward") {
        return Ok(Command::Forward(1));
    }
    if is_word(name, "back") {
        return Ok(Command::Back(1));
    }
    if is_word(name, "go") {
        return Ok(Command::Go);
    }
    if is_word(name, "rgo") {
        return Ok(Command::Rgo);
    }
    if is_word(name, "quit") {
        return Ok(Command::Quit);
    }
    if is_word(name, "help") {
        return Ok(Command::Help);
    }
    if is_word(name, "list") {
        return Ok(Command::Listing(None));
    }
    Err(DebugFault::BadCommand)
}

// The command that watches an address in a way.
fn watch<A: Allocator>(
    symbols: &[Symbol<A>],
    kind: WatchKind,
    operand: &[u8],
) -> Result<Command, DebugFault>
    ensures { result ≡ with_one (Watch kind) (address_meant symbols.now operand.now) }
{
    let address = address_meant(symbols, operand)?;
    Ok(Command::Watch { kind, address })
}

// The command of a word with one operand.
fn single_command<A: Allocator>(
    symbols: &[Symbol<A>],
    name: &[u8],
    operand: &[u8],
) -> Result<Command, DebugFault>
    ensures { result ≡ single_command symbols.now name.now operand.now }
{
    if is_word(name, "goto") {
        return Ok(Command::Goto(count_in(operand)?));
    }
    if is_word(name, "forward") {
        return Ok(Command::Forward(count_in(operand)?));
    }
    if is_word(name, "back") {
        return Ok(Command::Back(count_in(operand)?));
    }
    if is_word(name, "break") {
        return Ok(Command::Break(address_meant(symbols, operand)?));
    }
    if is_word(name, "watch") {
        return watch(symbols, WatchKind::Change, operand);
    }
    if is_word(name, "regs") {
        return Ok(Command::Regs(count_in(operand)?));
    }
    if is_word(name, "step") {
        return Ok(Command::Step(count_in(operand)?));
    }
    if is_word(name, "rwatch") {
        return watch(symbols, WatchKind::Read, operand);
    }
    if is_word(name, "awatch") {
        return watch(symbols, WatchKind::Access, operand);
    }
    if is_word(name, "delete") {
        return Ok(Command::Delete(address_meant(symbols, operand)?));
    }
    if is_word(name, "list") {
        return Ok(Command::Listing(Some(count_in(operand)?)));
    }
    Err(DebugFault::BadCommand)
}

// The command of a word with two operands.
fn double_command<A: Allocator>(
    symbols: &[Symbol<A>],
    name: &[u8],
    first: &[u8],
    second: &[u8],
) -> Result<Command, DebugFault>
    ensures { result ≡ double_command symbols.now name.now first.now second.now }
{
    if is_word(name, "steps") {
        let from = count_in(first)?;
        let to = count_in(second)?;
        return Ok(Command::Steps { from, to });
    }
    if is_word(name, "mem") {
        let address = address_meant(symbols, first)?;
        let count = count_in(second)?;
        return Ok(Command::Mem { address, count });
    }
    Err(DebugFault::BadCommand)
}

/// `regs` with a hart's number and names of registers.
pub(crate) fn registers_command(hart: &[u8], names: &[u8]) -> Result<Command, DebugFault>
    ensures { result ≡ registers_command hart.now (line_words names.now) }
{
    let hart = count_in(hart)?;
    match registers_in(names) {
        Some(list) => Ok(Command::Registers { hart, list }),
        None => Err(DebugFault::BadCommand),
    }
}

/// The command of a word with at most two operands; an empty operand counts as missing.
pub fn command_by<A: Allocator>(
    symbols: &[Symbol<A>],
    name: &[u8],
    first: &[u8],
    second: &[u8],
) -> Result<Command, DebugFault>
    ensures { result ≡ command_by symbols.now name.now first.now second.now }
{
    if name.is_empty() {
        return Ok(Command::Nothing);
    }
    if first.is_empty() {
        return bare_command(name);
    }
    if second.is_empty() {
        return single_command(symbols, name, first);
    }
    double_command(symbols, name, first, second)
}
