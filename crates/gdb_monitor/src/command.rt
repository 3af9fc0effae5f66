//! The commands, and the lines that they are read from.
ghost use Rattle.std.specs.Prelude.{◌≡◌};
ghost use Rattle.std.specs.Str.{bytes_eq};
ghost use Rattle.gdb_monitor.specs.Commands.{bare_monitor, single_monitor, double_monitor, monitor_by, monitor_command};

use debug_text::{decimal_of, next_word};

/// A command. A number above 2^64 - 1 is capped at that: it is past every end.
#[derive(Clone, Copy)]
pub enum Command {
    /// `where`, or a blank line: shows the position.
    Where,
    /// `goto K`: moves to position K.
    Goto(u64),
    /// `forward [N]`: moves N choices forward, 1 by default.
    Forward(u64),
    /// `back [N]`: moves N choices back, 1 by default.
    Back(u64),
    /// `schedule`: shows the steps of the choices near the position.
    Nearby,
    /// `schedule A B`: shows the steps of the choices from A to B - 1.
    Schedule {
        /// The first choice, from 0.
        from: u64,
        /// The choice after the last.
        to: u64,
    },
    /// `harts`: shows the end and the reservation of each hart.
    Harts,
    /// `help`: shows the commands.
    Help,
}

// Whether a word is a given one.
fn is_word(name: &[u8], word: &str) -> bool
    ensures { result ≡ bytes_eq name.now word.now }
{
    name == word.as_bytes()
}

// The command of a single word.
fn bare_command(name: &[u8]) -> Option<Command>
    ensures { result ≡ bare_monitor name.now }
{
    if is_word(name, "where") {
        return Some(Command::Where);
    }
    if is_word(name, "forward") {
        return Some(Command::Forward(1));
    }
    if is_word(name, "back") {
        return Some(Command::Back(1));
    }
    if is_word(name, "schedule") {
        return Some(Command::Nearby);
    }
    if is_word(name, "harts") {
        return Some(Command::Harts);
    }
    if is_word(name, "help") {
        return Some(Command::Help);
    }
    None
}

// The command of a word with one operand.
fn single_command(name: &[u8], operand: &[u8]) -> Option<Command>
    ensures { result ≡ single_monitor name.now operand.now }
{
    if is_word(name, "goto") {
        return Some(Command::Goto(decimal_of(operand)?));
    }
    if is_word(name, "forward") {
        return Some(Command::Forward(decimal_of(operand)?));
    }
    if is_word(name, "back") {
        return Some(Command::Back(decimal_of(operand)?));
    }
    None
}

// The command of a word with two operands.
fn double_command(name: &[u8], first: &[u8], second: &[u8]) -> Option<Command>
    ensures { result ≡ double_monitor name.now first.now second.now }
{
    if is_word(name, "schedule") {
        let from = decimal_of(first)?;
        let to = decimal_of(second)?;
        return Some(Command::Schedule { from, to });
    }
    None
}

// The command of a word with at most two operands; an empty operand counts as missing.
fn command_by(name: &[u8], first: &[u8], second: &[u8]) -> Option<Command>
    ensures { result ≡ monitor_by name.now first.now second.now }
{
    if name.is_empty() {
        return Some(Command::Where);
    }
    if first.is_empty() {
        return bare_command(name);
    }
    if second.is_empty() {
        return single_command(name, first);
    }
    double_command(name, first, second)
}

/// The command of a line; `None` if it is no command. Words are separated by spaces.
#[tactic(auto, unfolding(crate::specs::Commands::monitor_command))]
pub fn read_command(line: &[u8]) -> Option<Command>
    ensures { result ≡ monitor_command line.now }
{
    let (name, rest) = next_word(line);
    let (first, rest) = next_word(rest);
    let (second, rest) = next_word(rest);
    let (more, _) = next_word(rest);
    if !more.is_empty() {
        return None;
    }
    command_by(name, first, second)
}
