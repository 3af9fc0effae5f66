//! Worked runs, with each request for memory refused in turn: what `run` prints of their
//! properties, and its status.
use byte_io::Status;
use cmd_json::Form;
use cmd_properties::{Hangs, judged_text};
use machine::Inputs;
use outcome::{Exit, Expect};
use program_open::OpenRun;
use property_judge::{Comparison, Judged, Order, Property};
use run_hangs::RunStatus;
use sched_text::read_choices;
use std::alloc::{AllocError, Allocator, Global};
use test_images::{STORES_INPUT, writable_program};
use test_refusing::{Call, tried};

// A run of STORES_INPUT by two harts with the inputs 7 and 9.
struct Row {
    choices: &'static str,
    exit: Exit,
    properties: [Property; 2],
    shown: &'static str,
    status: Status,
}

const ALONE: Property = Property::NeverBoth {
    from: 0x1_0004,
    to: 0x1_0008,
};

const BELOW: Property = Property::Always {
    word: 0x1_1004,
    comparison: Comparison::Unsigned(Order::AtMost),
    number: 0x7_0000,
};

// Comparisons of the word with -1.
const EQUAL: Property = Property::Always {
    word: 0x1_1004,
    comparison: Comparison::Equal,
    number: 0xffff_ffff,
};

const UNEQUAL: Property = Property::Always {
    word: 0x1_1004,
    comparison: Comparison::Unequal,
    number: 0xffff_ffff,
};

const ABOVE: Property = Property::Always {
    word: 0x1_1004,
    comparison: Comparison::Signed(Order::Greater),
    number: 0xffff_ffff,
};

const ABOVE_UNSIGNED: Property = Property::Always {
    word: 0x1_1004,
    comparison: Comparison::Unsigned(Order::Greater),
    number: 0xffff_ffff,
};

#[rattlefmt::skip]
const ROWS: [Row; 6] = [
    Row { choices: "0 0", exit: Exit::May, properties: [ALONE, BELOW], status: Status::Done,
        shown: "hart 0 running pc 00010008\nhart 1 running pc 00010000\nnever-both 00010004..00010008 kept\nalways 00011004 <=u 00070000 kept\n" },
    Row { choices: "0 0 1", exit: Exit::Must, properties: [ALONE, BELOW], status: Status::Faulted,
        shown: "hart 0 running pc 00010008\nhart 1 running pc 00010004\nnever-both 00010004..00010008 kept\nalways 00011004 <=u 00070000 kept\n" },
    Row { choices: "0 1", exit: Exit::May, properties: [ALONE, BELOW], status: Status::Broken,
        shown: "hart 0 running pc 00010004\nhart 1 running pc 00010004\nnever-both 00010004..00010008 broken after 2\nalways 00011004 <=u 00070000 kept\n" },
    Row { choices: "0 0 1 1", exit: Exit::Must, properties: [ALONE, BELOW], status: Status::Broken,
        shown: "hart 0 running pc 00010008\nhart 1 running pc 00010008\nnever-both 00010004..00010008 kept\nalways 00011004 <=u 00070000 broken after 4\n" },
    Row { choices: "", exit: Exit::May, properties: [EQUAL, UNEQUAL], status: Status::Broken,
        shown: "hart 0 running pc 00010000\nhart 1 running pc 00010000\nalways 00011004 == ffffffff broken after 0\nalways 00011004 != ffffffff kept\n" },
    Row { choices: "", exit: Exit::May, properties: [ABOVE, ABOVE_UNSIGNED], status: Status::Broken,
        shown: "hart 0 running pc 00010000\nhart 1 running pc 00010000\nalways 00011004 > ffffffff kept\nalways 00011004 >u ffffffff broken after 0\n" },
];

impl Call for Row {
    fn answer<A: Allocator + Copy>(&self, alloc: A, _host: Global) -> Result<bool, AllocError> {
        let Ok(inputs) = Inputs::new(&[7, 9]) else {
            return Ok(false);
        };
        let Ok(choices) = read_choices(alloc, self.choices.as_bytes(), inputs.harts()) else {
            return Err(AllocError);
        };
        let run = OpenRun {
            image: writable_program(alloc, &STORES_INPUT)?,
            inputs,
            choices,
        };
        let expect = Expect {
            rule: None,
            exit: self.exit,
        };
        let mut judged = self.properties.map(|property| Judged {
            property,
            broken: None,
        });
        let asked = Hangs::Unasked;
        let (text, status) = judged_text(alloc, Form::Text, &run, expect, asked, &mut judged)?;
        Ok(text.as_slice() == self.shown.as_bytes() && status == RunStatus::Of(self.status))
    }
}

#[test]
fn properties_are_printed(rt: HostRuntime) {
    for (number, row) in ROWS.iter().enumerate() {
        assert!(rt; tried(rt.alloc(), row).is_ok(), "row {number}");
    }
}
