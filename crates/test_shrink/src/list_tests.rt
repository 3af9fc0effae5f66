//! Lists shrunk over a plain test, through the bound.
ghost use Rattle.std.specs.Prelude.{◌≤◌, length};

use cmd_shrink::{ChoicesLeft, Failing, Unheard, shrink_choices};
use machine::Choice;
use sched_text::print_runs;
use std::alloc::{AllocError, Global};

// A list fails that has so many choices or more.
#[derive(Clone, Copy)]
struct AtLeast {
    least: usize,
}

impl Failing for AtLeast {
    ghost fails = { λ t choices. t.least ≤ length choices };

    fn is_failing(&self, choices: &[Choice]) -> Result<bool, AllocError> {
        Ok(self.least <= choices.len())
    }
}

// Notes what was told.
#[derive(Drop)]
struct Noted {
    last_left: usize,
    needed: Option<usize>,
}

impl ChoicesLeft for Noted {
    fn choices_left(&mut self, left: usize) {
        self.last_left = left;
    }

    fn choices_needed(&mut self, needed: usize) {
        self.needed = Some(needed);
    }
}

#[rattlefmt::skip]
const GIVEN: [Choice; 5] = [
    Choice { hart: 0, refuse: true },
    Choice { hart: 1, refuse: false },
    Choice { hart: 2, refuse: true },
    Choice { hart: 1, refuse: true },
    Choice { hart: 0, refuse: false },
];

// Whether three choices are left where three fail, all of them without marks, and it is told so;
// nothing for want of memory.
fn are_three_left(alloc: Global) -> Option<bool> {
    let mut noted = Noted {
        last_left: 0,
        needed: None,
    };
    let list = shrink_choices(alloc, &AtLeast { least: 3 }, &GIVEN, &mut noted).ok()?;
    let are_unmarked = list.iter().all(|choice| !choice.refuse);
    Some(list.len() == 3 && are_unmarked && noted.last_left == 3 && noted.needed == Some(3))
}

#[test]
fn so_many_choices_are_left_without_marks(rt: HostRuntime) {
    assert!(rt; are_three_left(rt.alloc()) == Some(true));
}

// Each of four harts twice.
#[rattlefmt::skip]
const BY_TURNS: [Choice; 8] = [
    Choice { hart: 0, refuse: false },
    Choice { hart: 1, refuse: false },
    Choice { hart: 2, refuse: false },
    Choice { hart: 3, refuse: false },
    Choice { hart: 0, refuse: false },
    Choice { hart: 1, refuse: false },
    Choice { hart: 2, refuse: false },
    Choice { hart: 3, refuse: false },
];

// Whether all choices are left where as many are needed, and each hart's stand together; nothing
// for want of memory.
fn do_harts_stand_together(alloc: Global) -> Option<bool> {
    let list = shrink_choices(alloc, &AtLeast { least: 8 }, &BY_TURNS, &mut Unheard).ok()?;
    let text = print_runs(alloc, &list).ok()?;
    Some(text.as_bytes() == b"0*2 1*2 2*2 3*2\n".as_slice())
}

#[test]
fn needed_choices_of_a_hart_stand_together(rt: HostRuntime) {
    assert!(rt; do_harts_stand_together(rt.alloc()) == Some(true));
}
