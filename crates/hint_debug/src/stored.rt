//! The store of a step to a watched word.

ghost use Rattle.std.specs.Prelude.{◌≡◌, ◌-◌, ◌%◌, IfOk, IfSome, OnOk};
ghost use Rattle.debug_session.specs.Session.{session, world_at};
ghost use Rattle.debug_session.specs.Words.{viewed_word};

use debug_session::{Debugger, MoveFault, word_at};
use isa_names::Word;
use std::alloc::Allocator;
use std::fmt;

/// A step that has changed or accessed a watched word, shown as a line without LF.
#[derive(Clone, Copy)]
pub struct StoredWord {
    /// The hart that took the step.
    pub hart: u32,
    /// The word's address, a multiple of 4.
    pub address: u32,
    /// The word before the step.
    pub before: u32,
    /// The word after it.
    pub after: u32,
}

impl fmt::Display for StoredWord {
    fn fmt<W: fmt::Write>(&self, f: &mut fmt::Formatter<W>) -> fmt::Result {
        let (hart, address) = (self.hart, Word(self.address));
        let (before, after) = (Word(self.before), Word(self.after));
        if self.before == self.after {
            write!(f, "hart {hart} accessed {address}, which stays {after}")
        } else {
            write!(f, "hart {hart} changed {address} from {before} to {after}")
        }
    }
}

/// The address in an answer with a line of a command that watches and eight hexadecimal digits.
pub fn watched_word(answer: &str) -> Option<u32> {
    'lines: for line in answer.lines() {
        if let Some((command, digits)) = line.split_once(' ') {
            if matches!(command, "watch" | "rwatch" | "awatch") {
                return u32::from_str_radix(digits, 16).ok();
            }
        }
    }
    None
}

/// What became of a word by the step before a debugger's position; `None` at the start. The position
/// stays; if out of memory, it may be one less.
pub fn word_before<A: Allocator + Copy>(
    alloc: A,
    debugger: &mut Debugger<A>,
    address: u32,
) -> Result<Option<StoredWord>, MoveFault>
    ensures stays { OnOk result (session debugger.new ≡ session debugger.old) }
    ensures word { IfOk result (λ found. IfSome found (λ stored. stored.address ≡ address - address % 4)) }
    ensures before { IfOk result (λ found. IfSome found (λ stored. stored.before ≡ viewed_word
        (world_at (session debugger.old) ((session debugger.old).position - 1)).memory stored.address)) }
    ensures after { IfOk result (λ found. IfSome found (λ stored. stored.after ≡ viewed_word
        (world_at (session debugger.old) (session debugger.old).position).memory stored.address)) }
{
    let address = address - address % 4;
    let position = debugger.position();
    if position == 0 {
        return Ok(None);
    }
    let Some(choice) = debugger.choices().get(position - 1) else {
        return Ok(None);
    };
    let hart = choice.hart;
    let after = word_at(debugger.machine().store(), address);
    debugger.goto(alloc, position - 1)?;
    let before = word_at(debugger.machine().store(), address);
    debugger.goto(alloc, position)?;
    Ok(Some(StoredWord {
        hart,
        address,
        before,
        after,
    }))
}
