//! Prints history texts.

ghost use Rattle.std.specs.Prelude.{◌≡◌, ℕ, ◌<◌, ◌^◌, Some, IfOk, string_bytes};
ghost use Rattle.std.specs.List.{All};
ghost use Rattle.history.specs.Grammar.{SpellsHistory};
ghost use Rattle.history.specs.Printing.{entry_text, history_text};

use crate::entry::Entry;
use std::alloc::{AllocError, Allocator};
use std::fmt;

// An entry, shown as an item of a history text.
#[derive(Clone, Copy)]
struct EntryItem(Entry);

impl fmt::Display for EntryItem {
    ghost output = { λ item. Some (entry_text item.0) };

    fn fmt<W: fmt::Write>(&self, f: &mut fmt::Formatter<W>) -> fmt::Result {
        let hart = self.0.hart;
        let local = self.0.local;
        if self.0.refuse {
            write!(f, "{hart}+{local}!")
        } else {
            write!(f, "{hart}+{local}")
        }
    }
}

/// Prints entries as a history text: one space between items and LF at the end, or nothing for no
/// entries.
pub fn print_history<A: Allocator + Copy>(
    alloc: A,
    entries: &[Entry],
) -> Result<String<A>, AllocError>
    ensures text { IfOk result (λ text. string_bytes text ≡ history_text entries.now) }
    ensures spells { IfOk result (λ text. (harts : ℕ) → harts < 2 ^ 32
        → All (λ e. e.hart < harts) entries.now → All (λ e. e.local < 2 ^ 32) entries.now
        → SpellsHistory harts (string_bytes text) entries.now) }
{
    let mut text = String::new(alloc);
    let Some((first, rest)) = entries.split_first() else {
        return Ok(text);
    };
    let item = EntryItem(*first);
    write!(text, "{item}")?;
    'items: for entry in rest {
        let item = EntryItem(*entry);
        write!(text, " {item}")?;
    }
    writeln!(text)?;
    Ok(text)
}
