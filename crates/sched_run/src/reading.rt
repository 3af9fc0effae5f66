//! Reads the runs of equal choices of a text, one after another. The list that the text spells is
//! never held, so a text of a few bytes that spells thousands of millions of choices takes no
//! memory.
ghost use Rattle.std.specs.Prelude.{◌≡◌, ◌+◌, ◌<◌, ◌≤◌, ℕ, Ok, List, IfNone, IfSome, length};
ghost use Rattle.text_items.specs.Items.{items_from};
ghost use Rattle.sched_text.specs.Runs.{choice_run, equal_choices};
ghost use Rattle.sched_run.specs.Left.{plain, none_left, behind_choices, item_then, left_after, left_of};

use machine::Choice;
use sched_text::{ChoiceFault, Run, read_run};
use text_items::{is_blank, next_item};

/// The state of reading a choice text.
#[derive(Drop)]
pub struct Reading {
    // Offset at which the next item is searched.
    from: usize,
    /// Why there was no next run; `None` at the end of the text.
    pub fault: Option<ChoiceFault>,
}

impl Reading {
    /// At the start of a text.
    pub fn begin() -> Self
        ensures at_front { (harts : ℕ) (text : List ℕ) → left_of harts text result ≡ left_after harts text 0 }
        ensures within { result.from ≡ 0 }
    {
        Reading {
            from: 0,
            fault: None,
        }
    }

    /// The next run of equal choices that the text spells, if there is one.
    #[inline]
    pub fn next(&mut self, text: &[u8], harts: u32) -> Option<Run>
        requires within { self.old.from ≤ length text.now }
        ensures within { self.new.from ≤ length text.now }
        ensures some { IfSome result (λ run. left_of harts text.now self.old
            ≡ behind_choices (equal_choices run) (left_of harts text.now self.new)) }
        ensures counted { IfSome result (λ run. 0 < run.count) }
        ensures of_hart { IfSome result (λ run. run.choice.hart < harts) }
        ensures behind { IfSome result (λ _. self.old.from < self.new.from) }
        ensures none { IfNone result (left_of harts text.now self.old ≡ none_left self.new.fault) }
    {
        // Most items of most texts are one digit: no loop, no slices.
        if let Some(hart) = digit_at(text, self.from, harts) {
            self.from += 2;
            return Some(once(hart));
        }
        self.read_item(text, harts)
    }

    // The run of the next item, of any shape.
    #[inline(never)]
    #[cold]
    fn read_item(&mut self, text: &[u8], harts: u32) -> Option<Run>
        requires within { self.old.from ≤ length text.now }
        ensures within { self.new.from ≤ length text.now }
        ensures some { IfSome result (λ run. left_of harts text.now self.old
            ≡ behind_choices (equal_choices run) (left_of harts text.now self.new)) }
        ensures counted { IfSome result (λ run. 0 < run.count) }
        ensures of_hart { IfSome result (λ run. run.choice.hart < harts) }
        ensures behind { IfSome result (λ _. self.old.from < self.new.from) }
        ensures none { IfNone result (left_of harts text.now self.old ≡ none_left self.new.fault) }
    {
        // Harts from 10 on.
        if let Some(hart) = two_digits_at(text, self.from, harts) {
            self.from += 3;
            return Some(once(hart));
        }
        self.read_any_item(text, harts)
    }

    // As `read_item`, by the reader of all items.
    fn read_any_item(&mut self, text: &[u8], harts: u32) -> Option<Run>
        requires within { self.old.from ≤ length text.now }
        ensures within { self.new.from ≤ length text.now }
        ensures some { IfSome result (λ run. left_of harts text.now self.old
            ≡ behind_choices (equal_choices run) (left_of harts text.now self.new)) }
        ensures counted { IfSome result (λ run. 0 < run.count) }
        ensures of_hart { IfSome result (λ run. run.choice.hart < harts) }
        ensures behind { IfSome result (λ _. self.old.from < self.new.from) }
        ensures none { IfNone result (left_of harts text.now self.old ≡ none_left self.new.fault) }
    {
        let Some((begin, end)) = next_item(text, self.from) else {
            self.fault = None;
            return None;
        };
        match read_run(&text[begin..end], begin, harts) {
            Ok(named) => {
                self.from = behind_blank(text, end);
                Some(named)
            }
            Err(fault) => {
                self.fault = Some(fault);
                None
            }
        }
    }
}

// One choice of a hart.
#[inline]
fn once(hart: u32) -> Run
    ensures { result ≡ choice_run (plain hart) 1 }
{
    Run {
        choice: Choice {
            hart,
            refuse: false,
        },
        count: 1,
    }
}

// The hart of an item of one digit at an offset, if a blank follows and the hart is below `harts`.
#[inline]
fn digit_at(text: &[u8], from: usize, harts: u32) -> Option<u32>
    requires { from ≤ length text.now }
    ensures within { IfSome result (λ hart. from + 2 ≤ length text.now) }
    ensures there { IfSome result (λ hart. hart < harts) }
    ensures first { IfSome result (λ hart. left_after harts text.now from
        ≡ item_then (Ok (choice_run (plain hart) 1)) (left_after harts text.now (from + 2))) }
{
    let after = from + 1;
    if after >= text.len() {
        return None;
    }
    let hart = u32::from(text[from]).wrapping_sub(u32::from(b'0'));
    if hart < harts.min(10) && is_blank(text[after]) {
        Some(hart)
    } else {
        None
    }
}

// As `digit_at`, for two digits.
#[inline]
fn two_digits_at(text: &[u8], from: usize, harts: u32) -> Option<u32>
    requires { from ≤ length text.now }
    ensures within { IfSome result (λ hart. from + 3 ≤ length text.now) }
    ensures there { IfSome result (λ hart. hart < harts) }
    ensures first { IfSome result (λ hart. left_after harts text.now from
        ≡ item_then (Ok (choice_run (plain hart) 1)) (left_after harts text.now (from + 3))) }
{
    let after = from + 2;
    if after >= text.len() {
        return None;
    }
    let tens = u32::from(text[from]).wrapping_sub(u32::from(b'0'));
    let ones = u32::from(text[from + 1]).wrapping_sub(u32::from(b'0'));
    if tens == 0 || tens > 9 || ones > 9 || !is_blank(text[after]) {
        return None;
    }
    let hart = 10 * tens + ones;
    if hart < harts { Some(hart) } else { None }
}

// The offset after a blank, if there is one; the items that follow are the same.
fn behind_blank(text: &[u8], at: usize) -> usize
    requires { at ≤ length text.now }
    ensures within { result ≤ length text.now }
    ensures after { at ≤ result }
    ensures same { items_from at text.now ≡ items_from result text.now }
{
    if at < text.len() && is_blank(text[at]) {
        at + 1
    } else {
        at
    }
}
