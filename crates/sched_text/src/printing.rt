//! Prints choice texts.

ghost use Rattle.std.specs.Prelude.{◌≡◌, ℕ, ◌<◌, ◌^◌, ◌&&◌, nat_lt, true, Some, IfOk, string_bytes};
ghost use Rattle.std.specs.List.{All};
ghost use Rattle.sched_text.specs.Grammar.{SpellsChoices};
ghost use Rattle.sched_text.specs.Runs.{same_choice};
ghost use Rattle.sched_text.specs.Printing.{item_text, choices_text, run_text, runs_text};

use crate::run::{MOST_EQUAL, Run};
use machine::Choice;
use std::alloc::{AllocError, Allocator};
use std::fmt;

// A choice, shown as an item of a choice text.
#[derive(Clone, Copy)]
struct ChoiceItem(Choice);

impl fmt::Display for ChoiceItem {
    ghost output = { λ item. Some (item_text item.0) };

    fn fmt<W: fmt::Write>(&self, f: &mut fmt::Formatter<W>) -> fmt::Result {
        let hart = self.0.hart;
        if self.0.refuse {
            write!(f, "{hart}!")
        } else {
            write!(f, "{hart}")
        }
    }
}

// A run, shown as an item of a choice text.
#[derive(Clone, Copy)]
struct RunItem(Run);

impl fmt::Display for RunItem {
    ghost output = { λ item. Some (run_text item.0) };

    fn fmt<W: fmt::Write>(&self, f: &mut fmt::Formatter<W>) -> fmt::Result {
        let hart = self.0.choice.hart;
        let count = self.0.count;
        match (self.0.choice.refuse, count == 1) {
            (true, true) => write!(f, "{hart}!"),
            (true, false) => write!(f, "{hart}!*{count}"),
            (false, true) => write!(f, "{hart}"),
            (false, false) => write!(f, "{hart}*{count}"),
        }
    }
}

/// Prints choices as a choice text, one item per choice: one space between items and LF at the end,
/// or nothing for no choices.
pub fn print_choices<A: Allocator + Copy>(
    alloc: A,
    choices: &[Choice],
) -> Result<String<A>, AllocError>
    ensures text { IfOk result (λ text. string_bytes text ≡ choices_text choices.now) }
    ensures spells { IfOk result (λ text. (harts : ℕ) → harts < 2 ^ 32
        → All (λ c. c.hart < harts) choices.now → SpellsChoices harts (string_bytes text) choices.now) }
{
    let mut text = String::new(alloc);
    let Some((first, rest)) = choices.split_first() else {
        return Ok(text);
    };
    let item = ChoiceItem(*first);
    write!(text, "{item}")?;
    'items: for choice in rest {
        let item = ChoiceItem(*choice);
        write!(text, " {item}")?;
    }
    writeln!(text)?;
    Ok(text)
}

// Whether a choice extends a run.
fn goes_on(run: Run, choice: Choice) -> bool
    ensures same { result ≡ same_choice run.choice choice && nat_lt run.count 16777216 }
    ensures room { result ≡ true → run.count < 16777216 }
{
    run.choice.hart == choice.hart && run.choice.refuse == choice.refuse && run.count < MOST_EQUAL
}

/// Prints choices as a choice text, one item per run: from the front, the longest run of at most
/// `MOST_EQUAL` equal choices, with `*` and its length if that is above 1; one space between items
/// and LF at the end, or nothing for no choices.
pub fn print_runs<A: Allocator + Copy>(
    alloc: A,
    choices: &[Choice],
) -> Result<String<A>, AllocError>
    ensures text { IfOk result (λ text. string_bytes text ≡ runs_text choices.now) }
    ensures spells { IfOk result (λ text. (harts : ℕ) → harts < 2 ^ 32
        → All (λ c. c.hart < harts) choices.now → SpellsChoices harts (string_bytes text) choices.now) }
{
    let mut text = String::new(alloc);
    let Some((first, rest)) = choices.split_first() else {
        return Ok(text);
    };
    let mut run = Run {
        choice: *first,
        count: 1,
    };
    'choices: for choice in rest {
        if goes_on(run, *choice) {
            run.count += 1;
            continue;
        }
        let item = RunItem(run);
        write!(text, "{item} ")?;
        run = Run {
            choice: *choice,
            count: 1,
        };
    }
    let item = RunItem(run);
    writeln!(text, "{item}")?;
    Ok(text)
}
