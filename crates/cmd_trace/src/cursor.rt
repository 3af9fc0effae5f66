//! The choices of a text, one after the other. The list is never held.
ghost use Rattle.std.specs.Prelude.{◌≡◌, ◌≤◌, ◌<◌, List, IfSome, length};
ghost use Rattle.sched_text.specs.declared.run.Run.{Run};
ghost use Rattle.cmd_trace.specs.Left.{NamesFrom, Follows};

use machine::Choice;
use sched_text::{Run, read_run};
use text_items::next_item;

/// A place in a choice text, before the choices that are left.
#[derive(Clone, Copy)]
pub struct Cursor<'a> {
    text: &'a [u8],
    at: usize,
    named: Run,
    harts: u32,
    ghost within: { at ≤ length text.now },
    ghost there: { named.choice.hart < harts },
}

// The run that the first item from an offset on names, and the end of that item; `None` if there is
// no item, or a bad one.
fn run_at(text: &[u8], at: usize, harts: u32) -> Option<(Run, usize)>
    requires { at ≤ length text.now }
    ensures within { IfSome result (λ r. r.1 ≤ length text.now) }
    ensures some { IfSome result (λ r. 0 < r.0.count) }
    ensures there { IfSome result (λ r. r.0.choice.hart < harts) }
    ensures follows { (runs : List Run) → NamesFrom harts text.now at runs → Follows harts text.now runs result }
{
    let (begin, end) = next_item(text, at)?;
    match read_run(&text[begin..end], begin, harts) {
        Ok(named) => Some((named, end)),
        Err(_) => None,
    }
}

impl<'a> Cursor<'a> {
    ghost use Rattle.std.specs.Prelude.{◌≡◌, ◌<◌, Ok, List, IfSome};
    ghost use Rattle.machine.specs.declared.choice.Choice.{Choice};
    ghost use Rattle.sched_text.specs.Reading.{choices_read};
    ghost use Rattle.cmd_trace.specs.Cursor.{Has, Takes};

    /// Before all choices of a text, which has at least one.
    pub fn new(text: &'a [u8], harts: u32) -> Cursor<'a>
        requires { 0 < harts }
        ensures has { (left : List Choice) → choices_read harts text.now ≡ Ok left → Has result left }
        ensures harts { result.harts ≡ harts }
    {
        let choice = Choice {
            hart: 0,
            refuse: false,
        };
        Cursor {
            text,
            at: 0,
            named: Run { choice, count: 0 },
            harts,
        }
    }

    /// The next choice; `None` if none is left.
    pub fn next(&mut self) -> Option<Choice>
        ensures takes { (left : List Choice) → Has self.old left → Takes self.new left result }
        ensures there { IfSome result (λ c. c.hart < self.old.harts) }
        ensures harts { self.new.harts ≡ self.old.harts }
    {
        if self.named.count > 0 {
            self.named.count -= 1;
            return Some(self.named.choice);
        }
        let Some((named, end)) = run_at(self.text, self.at, self.harts) else {
            return None;
        };
        self.at = end;
        self.named = Run {
            choice: named.choice,
            count: named.count - 1,
        };
        Some(named.choice)
    }
}
