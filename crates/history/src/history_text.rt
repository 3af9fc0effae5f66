//! History texts: in `1+3 0+0!` hart 1 takes three local steps and one more, then hart 0 one whose
//! store-conditional is refused.

ghost use Rattle.std.specs.Prelude.{◌≡◌, ◌<◌, ◌≢◌, drop, IfOk, IfErr};
ghost use Rattle.std.specs.List.{All};
ghost use Rattle.history.specs.Grammar.{SpellsHistory, SpoilsHistory};
ghost use Rattle.history.specs.Reading.{entry_of, entries_of};

use crate::entry::Entry;
use std::alloc::Allocator;
use text_items::{CAP, next_item, number, split_at_byte, split_mark};
use thiserror::Error;

/// Why a text gives no history: the byte offset of the first bad item, or out of memory.
#[derive(Clone, Copy, Debug, PartialEq, Eq, Error)]
pub enum HistoryFault {
    /// The item at this offset isn't two numbers without leading zeros with `+` between them and
    /// optionally `!` after them, or its second number is above 2^32 - 1.
    #[error("history fault BadEntry at {0}")]
    BadEntry(usize),
    /// The item at this offset names a hart that doesn't exist.
    #[error("history fault NoHart at {0}")]
    NoHart(usize),
    /// Out of memory.
    #[error("out of memory")]
    Memory,
}

// All bytes but the first.
fn behind_first(rest: &[u8]) -> &[u8]
    ensures { result.now ≡ drop 1 rest.now }
{
    match rest {
        [_, behind @ ..] => behind,
        [] => rest,
    }
}

// The entry of an item at an offset.
fn read_entry(item: &[u8], at: usize, harts: u32) -> Result<Entry, HistoryFault>
    ensures { result ≡ entry_of harts at item.now }
{
    let (front, refuse) = split_mark(item);
    let (before, rest) = split_at_byte(front, b'+');
    let Some(hart) = number(before) else {
        return Err(HistoryFault::BadEntry(at));
    };
    let Some(local) = number(behind_first(rest)) else {
        return Err(HistoryFault::BadEntry(at));
    };
    if local >= CAP {
        return Err(HistoryFault::BadEntry(at));
    }
    if hart >= u64::from(harts) {
        return Err(HistoryFault::NoHart(at));
    }
    Ok(Entry {
        hart: hart as u32,
        local: local as u32,
        refuse,
    })
}

/// Reads a history text: items between blanks (space, tab, LF, CR). An item is a hart's number, `+`
/// and the number of its local steps, in decimal without leading zeros, then `!` if the
/// store-conditional of the step after them is refused. The empty text gives the empty history. The
/// fault is that of the first bad item.
pub fn read_history<A: Allocator + Copy>(
    alloc: A,
    text: &[u8],
    harts: u32,
) -> Result<Vec<Entry, A>, HistoryFault>
    ensures spelled { IfOk result (λ entries. SpellsHistory harts text.now entries.items) }
    ensures spoiled { IfErr result (λ fault. fault ≢ HistoryFault.Memory
        → SpoilsHistory harts 0 text.now fault) }
    ensures within { IfOk result (λ entries. All (λ e. e.hart < harts) entries.items) }
    ensures ok { IfOk result (λ entries. entries_of harts text.now ≡ Ok entries.items) }
    ensures err { IfErr result (λ fault. fault ≢ HistoryFault.Memory
        → entries_of harts text.now ≡ Err fault) }
{
    let mut entries = Vec::new(alloc);
    let mut from = 0;
    'items: while let Some((begin, end)) = next_item(text, from) {
        let entry = match read_entry(&text[begin..end], begin, harts) {
            Ok(entry) => entry,
            Err(fault) => return Err(fault),
        };
        let Ok(()) = entries.push(entry) else {
            return Err(HistoryFault::Memory);
        };
        from = end;
    }
    Ok(entries)
}
