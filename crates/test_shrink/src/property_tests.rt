//! Worked programs whose runs break properties, with what is left of their choices, found by hand.
use crate::worked::{CROSSED, LOST, OWN_INPUT, file_of};
use byte_io::{MemorySink, MemorySource, Status};
use cmd_shrink::{Unheard, shrink_engine};
use object_library::Kind;
use outcome::{Exit, Expect};
use program_open::{CommandFault, deliver};
use property_judge::{Comparison, Order, Property};
use std::alloc::Global;

// A program, its inputs, what is expected of its runs, the properties, a choice text, and the text
// that is left of it or the fault.
struct Row {
    source: &'static str,
    inputs: &'static [u32],
    expect: Expect,
    properties: &'static [Property],
    given: &'static str,
    answer: Result<&'static str, CommandFault>,
}

const NO_FAULT: Expect = Expect {
    rule: None,
    exit: Exit::May,
};

const ALL_EXIT: Expect = Expect {
    rule: None,
    exit: Exit::Must,
};

const AGREED: Expect = Expect {
    rule: Some(Kind::Swap),
    exit: Exit::May,
};

// In `LOST`, from the load of the counter up to its store.
const ALONE: Property = Property::NeverBoth {
    from: 0x1_0008,
    to: 0x1_0014,
};

// In `LOST`, the counter is at most 0.
const UNCOUNTED: Property = Property::Always {
    word: 0x1_1000,
    comparison: Comparison::Unsigned(Order::AtMost),
    number: 0,
};

// In `LOST`, the number of harts that are done is at most 2.
const DONE: Property = Property::Always {
    word: 0x1_1004,
    comparison: Comparison::Unsigned(Order::AtMost),
    number: 2,
};

// The first word of the data is 1.
const ONE: Property = Property::Always {
    word: 0x1_1000,
    comparison: Comparison::Equal,
    number: 1,
};

#[rattlefmt::skip]
const ROWS: [Row; 11] = [
    // Two steps lead each hart into the section. That the run also faults doesn't count.
    Row { source: LOST, inputs: &[2, 2], expect: NO_FAULT, properties: &[ALONE],
        given: "0*3 1*12 0*14 1*3", answer: Ok("0*2 1*2\n") },
    // Kept: hart 0 has left the section before hart 1 enters it.
    Row { source: LOST, inputs: &[2, 2], expect: NO_FAULT, properties: &[ALONE],
        given: "0*6 1*9", answer: Err(CommandFault::NothingFails) },
    // Marks go, and the runs of each hart stand together.
    Row { source: LOST, inputs: &[2, 2], expect: NO_FAULT, properties: &[ALONE],
        given: "1! 0! 1 0!*2 1 0", answer: Ok("1*2 0*2\n") },
    // The fifth step of a hart stores 1.
    Row { source: LOST, inputs: &[2, 2], expect: NO_FAULT, properties: &[UNCOUNTED],
        given: "0*4 1*12 0*14", answer: Ok("1*5\n") },
    // Of two that are broken the first counts, not the one that is broken by fewer choices.
    Row { source: LOST, inputs: &[2, 2], expect: NO_FAULT, properties: &[ALONE, UNCOUNTED],
        given: "0*3 1*12", answer: Ok("0*2 1*2\n") },
    Row { source: LOST, inputs: &[2, 2], expect: NO_FAULT, properties: &[UNCOUNTED, ALONE],
        given: "0*3 1*12", answer: Ok("1*5\n") },
    // One that doesn't hold at the start needs no choice.
    Row { source: LOST, inputs: &[2, 2], expect: NO_FAULT, properties: &[ONE],
        given: "0*3 1*12", answer: Ok("") },
    // Where all are kept, a fault counts, or a hang.
    Row { source: LOST, inputs: &[2, 2], expect: NO_FAULT, properties: &[DONE],
        given: "0*3 1*12 0*14 1*3", answer: Ok("0*3 1*9 0*11\n") },
    Row { source: CROSSED, inputs: &[0, 0], expect: ALL_EXIT, properties: &[DONE],
        given: "0*9 1!*20", answer: Ok("0*8 1*8\n") },
    // A broken rule counts only where all are kept.
    Row { source: OWN_INPUT, inputs: &[7, 9], expect: AGREED, properties: &[DONE],
        given: "0!*5 1*6", answer: Ok("0*4 1*4\n") },
    Row { source: OWN_INPUT, inputs: &[7, 9], expect: AGREED, properties: &[ONE],
        given: "0!*5 1*6", answer: Ok("") },
];

// Whether this text is left of a row, or it is refused so; none for want of memory.
fn is_answered(alloc: Global, row: &Row) -> Option<bool> {
    let file = file_of(alloc, row.source)?;
    let mut program = MemorySource::new(&file);
    let mut choices = MemorySource::new(row.given.as_bytes());
    let mut sink = MemorySink::new(alloc);
    let answer = shrink_engine(
        alloc,
        row.inputs,
        row.expect,
        row.properties,
        &mut program,
        &mut choices,
        &mut Unheard,
    );
    let ending = deliver(&mut sink, answer);
    Some(match row.answer {
        Ok(left) => ending == Ok(Status::Done) && sink.bytes() == left.as_bytes(),
        Err(fault) => ending == Err(fault) && sink.bytes().is_empty(),
    })
}

#[test]
fn broken_properties_are_shrunk(rt: HostRuntime) {
    for (number, row) in ROWS.iter().enumerate() {
        assert!(rt; is_answered(rt.alloc(), row) == Some(true), "{number}");
    }
}
