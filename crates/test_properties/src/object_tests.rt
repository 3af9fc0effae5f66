//! Worked runs, with each request for memory refused in turn: the object of JSON that `run` prints
//! of them.
use byte_io::Status;
use cmd_json::Form;
use cmd_properties::{Hangs, judged_text};
use machine::Inputs;
use object_library::Kind;
use outcome::{Exit, Expect};
use program_open::OpenRun;
use property_judge::{Comparison, Judged, Order, Property};
use run_hangs::RunStatus;
use sched_text::read_choices;
use std::alloc::{AllocError, Allocator, Global};
use test_images::{CONDITIONAL, STORES_INPUT, writable_program};
use test_refusing::{Call, tried};

// The first instruction is an ebreak.
const BREAKS: [u32; 1] = [0x0010_0073];

const ALONE: Property = Property::NeverBoth {
    from: 0x1_0004,
    to: 0x1_0008,
};

const BELOW: Property = Property::Always {
    word: 0x1_1004,
    comparison: Comparison::Unsigned(Order::Less),
    number: 0xffff_ffff,
};

// A run by two harts with the inputs 7 and 9.
struct Row {
    words: &'static [u32],
    choices: &'static str,
    rule: Option<Kind>,
    properties: [Property; 2],
    shown: &'static str,
    status: Status,
}

#[rattlefmt::skip]
const ROWS: [Row; 4] = [
    Row { words: &STORES_INPUT, choices: "0 0", rule: None, properties: [ALONE, BELOW], status: Status::Done,
        shown: "{\"harts\":[{\"hart\":0,\"state\":\"running\",\"pc\":65544},{\"hart\":1,\"state\":\"running\",\"pc\":65536}],\"verdict\":null,\"properties\":[{\"kind\":\"never-both\",\"from\":65540,\"to\":65544,\"broken_after\":null},{\"kind\":\"always\",\"address\":69636,\"comparison\":\"<u\",\"number\":4294967295,\"broken_after\":null}]}\n" },
    Row { words: &STORES_INPUT, choices: "0 1", rule: None, properties: [ALONE, BELOW], status: Status::Broken,
        shown: "{\"harts\":[{\"hart\":0,\"state\":\"running\",\"pc\":65540},{\"hart\":1,\"state\":\"running\",\"pc\":65540}],\"verdict\":null,\"properties\":[{\"kind\":\"never-both\",\"from\":65540,\"to\":65544,\"broken_after\":2},{\"kind\":\"always\",\"address\":69636,\"comparison\":\"<u\",\"number\":4294967295,\"broken_after\":null}]}\n" },
    Row { words: &CONDITIONAL, choices: "0*6 1", rule: Some(Kind::Swap), properties: [BELOW, BELOW], status: Status::Broken,
        shown: "{\"harts\":[{\"hart\":0,\"state\":\"exited\",\"a0\":0,\"a1\":69632},{\"hart\":1,\"state\":\"running\",\"pc\":65540}],\"verdict\":\"broken\",\"properties\":[{\"kind\":\"always\",\"address\":69636,\"comparison\":\"<u\",\"number\":4294967295,\"broken_after\":null},{\"kind\":\"always\",\"address\":69636,\"comparison\":\"<u\",\"number\":4294967295,\"broken_after\":null}]}\n" },
    Row { words: &BREAKS, choices: "1", rule: None, properties: [BELOW, ALONE], status: Status::Faulted,
        shown: "{\"harts\":[{\"hart\":0,\"state\":\"running\",\"pc\":65536},{\"hart\":1,\"state\":\"faulted\",\"cause\":\"Break\",\"pc\":65536}],\"verdict\":null,\"properties\":[{\"kind\":\"always\",\"address\":69636,\"comparison\":\"<u\",\"number\":4294967295,\"broken_after\":null},{\"kind\":\"never-both\",\"from\":65540,\"to\":65544,\"broken_after\":null}]}\n" },
];

impl Call for Row {
    fn answer<A: Allocator + Copy>(&self, alloc: A, _host: Global) -> Result<bool, AllocError> {
        let Ok(inputs) = Inputs::new(&[7, 9]) else {
            return Ok(false);
        };
        let Ok(choices) = read_choices(alloc, self.choices.as_bytes(), inputs.harts()) else {
            return Err(AllocError);
        };
        let run = OpenRun {
            image: writable_program(alloc, self.words)?,
            inputs,
            choices,
        };
        let expect = Expect {
            rule: self.rule,
            exit: Exit::May,
        };
        let mut judged = self.properties.map(|property| Judged {
            property,
            broken: None,
        });
        let asked = Hangs::Unasked;
        let (text, status) = judged_text(alloc, Form::Json, &run, expect, asked, &mut judged)?;
        Ok(text.as_slice() == self.shown.as_bytes() && status == RunStatus::Of(self.status))
    }
}

#[test]
fn runs_are_printed_as_objects(rt: HostRuntime) {
    for (number, row) in ROWS.iter().enumerate() {
        assert!(rt; tried(rt.alloc(), row).is_ok(), "row {number}");
    }
}
