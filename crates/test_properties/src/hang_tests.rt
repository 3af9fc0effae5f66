//! Worked runs of which it is asked whether they hang, with each request for memory refused in turn:
//! what `run` prints of them, and its status.
use byte_io::Status;
use cmd_json::Form;
use cmd_properties::{Hangs, judged_text};
use machine::Inputs;
use outcome::{Exit, Expect};
use program_open::OpenRun;
use property_judge::{Comparison, Judged, Property};
use run_hangs::RunStatus;
use sched_text::read_choices;
use std::alloc::{AllocError, Allocator, Global};
use test_images::writable_program;
use test_refusing::{Call, tried};

// Each hart waits for a word that no hart stores.
const NOBODY_STORES: [u32; 5] = [
    0x0001_1437, // lui s0, 0x11
    0x0004_2283, // lw t0, 0(s0)
    0xfe02_8ee3, // beq t0, zero, -4
    0x05d0_0893, // addi a7, zero, 93
    0x0000_0073, // ecall
];

// Hart 0 stores the word that each hart waits for.
const HART_0_STORES: [u32; 7] = [
    0x0001_1437, // lui s0, 0x11
    0x0005_1463, // bne a0, zero, 8
    0x0084_2023, // sw s0, 0(s0)
    0x0004_2283, // lw t0, 0(s0)
    0xfe02_8ee3, // beq t0, zero, -4
    0x05d0_0893, // addi a7, zero, 93
    0x0000_0073, // ecall
];

// Hart 0 faults in the place of its store.
const HART_0_FAULTS: [u32; 7] = [
    0x0001_1437, // lui s0, 0x11
    0x0005_1463, // bne a0, zero, 8
    0x0010_0073, // ebreak
    0x0004_2283, // lw t0, 0(s0)
    0xfe02_8ee3, // beq t0, zero, -4
    0x05d0_0893, // addi a7, zero, 93
    0x0000_0073, // ecall
];

// A hart raises its flag, and goes on if the other's isn't raised; else it lowers its own and begins
// again. In turn two harts never get on, alone each does.
const GIVES_WAY: [u32; 13] = [
    0x0001_1437, // lui s0, 0x11
    0x0025_1313, // slli t1, a0, 2
    0x0064_04b3, // add s1, s0, t1
    0x0043_4393, // xori t2, t1, 4
    0x0074_0933, // add s2, s0, t2
    0x0084_a023, // sw s0, 0(s1)
    0x0009_2283, // lw t0, 0(s2)
    0x0002_8663, // beq t0, zero, 12
    0x0004_a023, // sw zero, 0(s1)
    0xff1f_f06f, // jal zero, -16
    0x0004_a023, // sw zero, 0(s1)
    0x05d0_0893, // addi a7, zero, 93
    0x0000_0073, // ecall
];

// Both harts are about to raise their flags.
const IN_TURN: &str = "0 1 0 1 0 1 0 1 0 1";

// A run by two harts with the inputs 7 and 9. Its one property is that the word at 0x00011000 is as
// compared with 0.
struct Row {
    words: &'static [u32],
    choices: &'static str,
    form: Form,
    asked: Hangs,
    property: Comparison,
    shown: &'static str,
    status: RunStatus,
}

#[rattlefmt::skip]
static ROWS: [Row; 9] = [
    Row { words: &NOBODY_STORES, choices: "0 1", form: Form::Text, asked: Hangs::Asked, property: Comparison::Equal,
        shown: "hart 0 running pc 00010004\nhart 1 running pc 00010004\nalways 00011000 == 00000000 kept\nhangs yes\n", status: RunStatus::Hangs },
    Row { words: &NOBODY_STORES, choices: "0 1", form: Form::Text, asked: Hangs::Unasked, property: Comparison::Equal,
        shown: "hart 0 running pc 00010004\nhart 1 running pc 00010004\nalways 00011000 == 00000000 kept\n", status: RunStatus::Of(Status::Done) },
    Row { words: &NOBODY_STORES, choices: "0 1", form: Form::Text, asked: Hangs::Asked, property: Comparison::Unequal,
        shown: "hart 0 running pc 00010004\nhart 1 running pc 00010004\nalways 00011000 != 00000000 broken after 0\nhangs yes\n", status: RunStatus::Of(Status::Broken) },
    Row { words: &HART_0_FAULTS, choices: "0*3 1*3", form: Form::Text, asked: Hangs::Asked, property: Comparison::Equal,
        shown: "hart 0 faulted Break pc 00010008\nhart 1 running pc 00010010\nalways 00011000 == 00000000 kept\nhangs yes\n", status: RunStatus::Of(Status::Faulted) },
    Row { words: &HART_0_STORES, choices: "1*5", form: Form::Text, asked: Hangs::Asked, property: Comparison::Equal,
        shown: "hart 0 running pc 00010000\nhart 1 running pc 00010010\nalways 00011000 == 00000000 kept\nhangs no\n", status: RunStatus::Of(Status::Done) },
    Row { words: &HART_0_STORES, choices: "1*5 0*7 1*5", form: Form::Text, asked: Hangs::Asked, property: Comparison::Equal,
        shown: "hart 0 exited a0 00000000 a1 00000007\nhart 1 exited a0 00000001 a1 00000009\nalways 00011000 == 00000000 broken after 8\nhangs no\n", status: RunStatus::Of(Status::Broken) },
    Row { words: &GIVES_WAY, choices: IN_TURN, form: Form::Text, asked: Hangs::Asked, property: Comparison::Equal,
        shown: "hart 0 running pc 00010014\nhart 1 running pc 00010014\nalways 00011000 == 00000000 kept\nhangs no\n", status: RunStatus::Of(Status::Done) },
    Row { words: &NOBODY_STORES, choices: "0 1", form: Form::Json, asked: Hangs::Asked, property: Comparison::Equal,
        shown: "{\"harts\":[{\"hart\":0,\"state\":\"running\",\"pc\":65540},{\"hart\":1,\"state\":\"running\",\"pc\":65540}],\"verdict\":null,\"properties\":[{\"kind\":\"always\",\"address\":69632,\"comparison\":\"==\",\"number\":0,\"broken_after\":null}],\"hangs\":true}\n", status: RunStatus::Hangs },
    Row { words: &HART_0_STORES, choices: "1*5", form: Form::Json, asked: Hangs::Asked, property: Comparison::Equal,
        shown: "{\"harts\":[{\"hart\":0,\"state\":\"running\",\"pc\":65536},{\"hart\":1,\"state\":\"running\",\"pc\":65552}],\"verdict\":null,\"properties\":[{\"kind\":\"always\",\"address\":69632,\"comparison\":\"==\",\"number\":0,\"broken_after\":null}],\"hangs\":false}\n", status: RunStatus::Of(Status::Done) },
];

fn rows() -> &'static [Row] {
    &ROWS
}

impl Call for Row {
    fn answer<A: Allocator + Copy>(&self, alloc: A, _host: Global) -> Result<bool, AllocError> {
        let Ok(inputs) = Inputs::new(&[7, 9]) else {
            return Ok(false);
        };
        let Ok(choices) = read_choices(alloc, self.choices.as_bytes(), inputs.harts()) else {
            return Err(AllocError);
        };
        let run = OpenRun {
            image: writable_program(alloc, self.words)?,
            inputs,
            choices,
        };
        let expect = Expect {
            rule: None,
            exit: Exit::May,
        };
        let property = Property::Always {
            word: 0x1_1000,
            comparison: self.property,
            number: 0,
        };
        let mut judged = [Judged {
            property,
            broken: None,
        }];
        let (text, status) = judged_text(alloc, self.form, &run, expect, self.asked, &mut judged)?;
        Ok(text.as_slice() == self.shown.as_bytes() && status == self.status)
    }
}

#[test]
fn hangs_are_told(rt: HostRuntime) {
    for (number, row) in rows().iter().enumerate() {
        assert!(rt; tried(rt.alloc(), row).is_ok(), "row {number}");
    }
}

#[test]
fn hang_has_status_7(rt: HostRuntime) {
    assert!(rt; RunStatus::Hangs.code() == 7 && RunStatus::Of(Status::Broken).code() == 4);
}
