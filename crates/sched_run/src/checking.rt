//! The first fault of a choice text, found before the run.
ghost use Rattle.std.specs.Prelude.{◌≡◌, ◌<◌, ℕ, Err, IfNone, IfSome, length, slice_index};
ghost use Rattle.sched_text.specs.Reading.{choices_read};
ghost use Rattle.sched_run.specs.Spelled.{IsSpelled};

use memchr::memchr;
use sched_text::{ChoiceFault, read_run};
use text_items::next_item;

/// The first fault of a text with counts, if there is one. A few bytes of such a text may stand for
/// minutes of steps, so it is checked before it is run. A text without counts runs about as fast as
/// it is checked, and gives `None`.
pub fn early_fault(text: &[u8], harts: u32) -> Option<ChoiceFault>
    ensures fault { IfSome result (λ fault. choices_read harts text.now ≡ Err fault) }
    // `None` for a text with a `*` means that it spells choices.
    ensures looked { IfNone result ((k : ℕ) → k < length text.now → slice_index text.now k ≡ 42
        → IsSpelled harts text.now) }
{
    if memchr(b'*', text).is_none() {
        return None;
    }
    first_fault(text, harts)
}

// The fault of the first bad item, if there is one.
fn first_fault(text: &[u8], harts: u32) -> Option<ChoiceFault>
    ensures fault { IfSome result (λ fault. choices_read harts text.now ≡ Err fault) }
    ensures none { IfNone result (IsSpelled harts text.now) }
{
    let mut from = 0;
    'items: while let Some((begin, end)) = next_item(text, from) {
        let _named = match read_run(&text[begin..end], begin, harts) {
            Ok(named) => named,
            Err(fault) => return Some(fault),
        };
        from = end;
    }
    None
}
