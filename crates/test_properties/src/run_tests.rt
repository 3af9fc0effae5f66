//! Worked runs, with each request for memory refused in turn: after how many choices a property
//! doesn't hold.
use elf_read::Symbol;
use machine::{Inputs, Machine};
use mem_paged::PageStore;
use property_judge::{Judged, Property, judge_run};
use property_text::{PropertyFault, read_always, read_never_both};
use sched_text::read_choices;
use std::alloc::{AllocError, Allocator, Global};
use test_images::{CONDITIONAL, STORES_INPUT, writable_program};
use test_refusing::{Call, tried};

// The text of a property.
#[derive(Clone, Copy)]
enum Text {
    Always(&'static str),
    NeverBoth(&'static str),
}

// A run of two harts with the inputs 7 and 9, and after how many of its choices a property is
// broken.
struct Row {
    words: &'static [u32],
    choices: &'static str,
    property: Text,
    broken: Option<usize>,
}

// STORES_INPUT: hart 0 stores 7, hart 1 stores 9, into the third byte of the word at 0x00011004.
#[rattlefmt::skip]
const ROWS: [Row; 19] = [
    Row { words: &STORES_INPUT, choices: "0 0 0", property: Text::Always("0x11004 == 0"), broken: Some(2) },
    Row { words: &STORES_INPUT, choices: "0 0", property: Text::Always("0x11004 == 0"), broken: Some(2) },
    Row { words: &STORES_INPUT, choices: "0", property: Text::Always("0x11004 == 0"), broken: None },
    Row { words: &STORES_INPUT, choices: "0 0", property: Text::Always("0x11004 != 0"), broken: Some(0) },
    Row { words: &STORES_INPUT, choices: "", property: Text::Always("0x11004 != 0"), broken: Some(0) },
    Row { words: &STORES_INPUT, choices: "0 1 0 1", property: Text::Always("0x11004 < 0x80000"), broken: Some(4) },
    Row { words: &STORES_INPUT, choices: "0 1 1 0", property: Text::Always("0x11004 < 0x80000"), broken: Some(3) },
    Row { words: &STORES_INPUT, choices: "0 1 1 0", property: Text::Always("0x11004 <= 0x90000"), broken: None },
    Row { words: &STORES_INPUT, choices: "0 1", property: Text::NeverBoth("0x10004..0x10008"), broken: Some(2) },
    Row { words: &STORES_INPUT, choices: "0 0 1", property: Text::NeverBoth("0x10004..0x10008"), broken: None },
    Row { words: &STORES_INPUT, choices: "0 0 1", property: Text::NeverBoth("0x10004..0x1000c"), broken: Some(3) },
    Row { words: &STORES_INPUT, choices: "0 0 0", property: Text::NeverBoth("0x10004..0x1000c"), broken: None },
    Row { words: &STORES_INPUT, choices: "", property: Text::NeverBoth("0x10000..0x10004"), broken: Some(0) },
    Row { words: &STORES_INPUT, choices: "0 1", property: Text::NeverBoth("0x10005..0x10008"), broken: None },
    Row { words: &CONDITIONAL, choices: "0 0 0 0 0 1 1 1 1 1", property: Text::NeverBoth("0x10014..0x10018"), broken: Some(10) },
    Row { words: &CONDITIONAL, choices: "0 0 0 0 0 0 1 1 1 1 1", property: Text::NeverBoth("0x10014..0x10018"), broken: None },
    Row { words: &CONDITIONAL, choices: "0 0 0", property: Text::Always("0x11000 == 0x11000"), broken: Some(0) },
    Row { words: &CONDITIONAL, choices: "0 0 0", property: Text::Always("0x11000 == 0"), broken: Some(3) },
    Row { words: &CONDITIONAL, choices: "0 0 1 0", property: Text::Always("0x11000 == 0"), broken: Some(4) },
];

// The property of a text.
fn property_of(text: Text, none: &[Symbol<Global>]) -> Result<Property, PropertyFault> {
    match text {
        Text::Always(text) => read_always(none, text.as_bytes()),
        Text::NeverBoth(text) => read_never_both(none, text.as_bytes()),
    }
}

impl Call for Row {
    fn answer<A: Allocator + Copy>(&self, alloc: A, host: Global) -> Result<bool, AllocError> {
        let none: Vec<Symbol<Global>> = Vec::new(host);
        let Ok(property) = property_of(self.property, &none) else {
            return Ok(false);
        };
        let Ok(inputs) = Inputs::new(&[7, 9]) else {
            return Ok(false);
        };
        let image = writable_program(alloc, self.words)?;
        let mut machine: Machine<PageStore<A>, A> = Machine::start(alloc, &image, &inputs)?;
        let Ok(choices) = read_choices(alloc, self.choices.as_bytes(), inputs.harts()) else {
            return Err(AllocError);
        };
        let mut judged = [Judged {
            property,
            broken: None,
        }];
        match judge_run(&mut machine, &choices, &mut judged) {
            Ok(()) => Ok(judged[0].broken == self.broken),
            Err(_) => Err(AllocError),
        }
    }
}

#[test]
fn first_break_is_found(rt: HostRuntime) {
    for (number, row) in ROWS.iter().enumerate() {
        assert!(rt; tried(rt.alloc(), row).is_ok(), "row {number}");
    }
}
