//! Choice texts: in `0 1*3 0!` hart 0 takes a step, then hart 1 three, then hart 0 another, whose
//! store-conditional is refused.

ghost use Rattle.std.specs.Prelude.{◌≡◌, ◌+◌, ◌++◌, ◌∷◌, [], ◌<◌, ◌≢◌, IfOk, IfErr, IfSome, OnOk};
ghost use Rattle.std.specs.List.{All};
ghost use Rattle.sched_text.specs.Grammar.{SpellsChoices, SpoilsChoices};
ghost use Rattle.sched_text.specs.Runs.{equal_choices};
ghost use Rattle.sched_text.specs.Reading.{count_of, run_of, choices_read};

use crate::run::{MOST_EQUAL, Run};
use machine::Choice;
use std::alloc::{AllocError, Allocator};
use text_items::{next_item, number, split_at_byte, split_mark};
use thiserror::Error;

/// Why a text gives no choices: the byte offset of the first bad item, or out of memory.
#[derive(Clone, Copy, Debug, PartialEq, Eq, Error)]
pub enum ChoiceFault {
    /// The item at this offset isn't a number without leading zeros, optionally followed by `!`,
    /// and by `*` and a count.
    #[error("choice fault BadChoice at {0}")]
    BadChoice(usize),
    /// The item at this offset names a hart that doesn't exist.
    #[error("choice fault NoHart at {0}")]
    NoHart(usize),
    /// Out of memory.
    #[error("out of memory")]
    Memory,
}

// The number of an item's choices, from the part that begins with `*`; 1 if that is empty.
fn read_count(counted: &[u8]) -> Option<u32>
    ensures { result ≡ count_of counted.now }
{
    let [_, digits @ ..] = counted else {
        return Some(1);
    };
    match number(digits) {
        Some(count) if count > 0 && count <= u64::from(MOST_EQUAL) => Some(count as u32),
        _ => None,
    }
}

// The hart that a single digit names, if it is below `harts`.
#[inline]
fn read_digit(item: &[u8], harts: u32) -> Option<u32>
    ensures digit { IfSome result (λ hart. (item.now ≡ (hart + 48) ∷ []) × (hart < 10)) }
    ensures there { IfSome result (λ hart. hart < harts) }
{
    let [byte] = item else {
        return None;
    };
    let hart = u32::from(byte.wrapping_sub(b'0'));
    if hart > 9 || hart >= harts {
        return None;
    }
    Some(hart)
}

/// The run that an item at an offset names. For callers that go through a text item by item,
/// without a list.
#[inline]
pub fn read_run(item: &[u8], at: usize, harts: u32) -> Result<Run, ChoiceFault>
    ensures { result ≡ run_of harts at item.now }
{
    // Most items of most texts are one digit and need no loop.
    if let Some(hart) = read_digit(item, harts) {
        let choice = Choice {
            hart,
            refuse: false,
        };
        return Ok(Run { choice, count: 1 });
    }
    read_any_run(item, at, harts)
}

// As `read_run`, for items of any shape.
#[inline(never)]
#[cold]
fn read_any_run(item: &[u8], at: usize, harts: u32) -> Result<Run, ChoiceFault>
    ensures { result ≡ run_of harts at item.now }
{
    let (front, counted) = split_at_byte(item, b'*');
    let (digits, refuse) = split_mark(front);
    let Some(hart) = number(digits) else {
        return Err(ChoiceFault::BadChoice(at));
    };
    let Some(count) = read_count(counted) else {
        return Err(ChoiceFault::BadChoice(at));
    };
    if hart >= u64::from(harts) {
        return Err(ChoiceFault::NoHart(at));
    }
    let choice = Choice {
        hart: hart as u32,
        refuse,
    };
    Ok(Run { choice, count })
}

// Appends a run's choices to a list. If out of memory, the list has some of them.
fn push_run<A: Allocator>(choices: &mut Vec<Choice, A>, run: Run) -> Result<(), AllocError>
    ensures { OnOk result (choices.new.items ≡ choices.old.items ++ equal_choices run) }
{
    'choices: for _ in 0..run.count {
        choices.push(run.choice)?;
    }
    Ok(())
}

/// Reads a choice text: items between blanks (space, tab, LF, CR). An item is a hart's number in
/// decimal without leading zeros, then `!` if the step's store-conditional is refused, then `*` and
/// a count from 1 to `MOST_EQUAL` if the choice is repeated. The empty text gives no choices. The
/// fault is that of the first bad item; a bad count is `BadChoice`, whatever the hart.
pub fn read_choices<A: Allocator + Copy>(
    alloc: A,
    text: &[u8],
    harts: u32,
) -> Result<Vec<Choice, A>, ChoiceFault>
    ensures spelled { IfOk result (λ choices. SpellsChoices harts text.now choices.items) }
    ensures spoiled { IfErr result (λ fault. fault ≢ ChoiceFault.Memory
        → SpoilsChoices harts 0 text.now fault) }
    ensures within { IfOk result (λ choices. All (λ c. c.hart < harts) choices.items) }
    ensures ok { IfOk result (λ choices. choices_read harts text.now ≡ Ok choices.items) }
    ensures err { IfErr result (λ fault. fault ≢ ChoiceFault.Memory
        → choices_read harts text.now ≡ Err fault) }
{
    let mut choices = Vec::new(alloc);
    let mut from = 0;
    'items: while let Some((begin, end)) = next_item(text, from) {
        let named = match read_run(&text[begin..end], begin, harts) {
            Ok(named) => named,
            Err(fault) => return Err(fault),
        };
        let Ok(()) = push_run(&mut choices, named) else {
            return Err(ChoiceFault::Memory);
        };
        from = end;
    }
    Ok(choices)
}
