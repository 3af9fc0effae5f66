//! Worked programs in which a word is always what it must be, or is not after some number of turns.
use byte_io::Unheard;
use explore_space::{Always, Answer, OwnBounds, Question, ScRefusals, explore};
use machine::{Choice, Inputs, Machine};
use mem_flat::FlatStore;
use outcome::{Exit, Expect};
use property_judge::{Comparison, Judged, Order, Property, judge_run};
use std::alloc::Global;
use test_images::{Program, program_image};

const ZERO: u32 = 0x0000_0437; // lui s0, 0

const ONE: u32 = 0x0010_0293; // addi t0, zero, 1

const LOAD: u32 = 0x0004_2283; // lw t0, 0(s0)

const ADD: u32 = 0x0012_8293; // addi t0, t0, 1

const STORE: u32 = 0x0054_2023; // sw t0, 0(s0)

const CLEAR: u32 = 0x0004_2023; // sw zero, 0(s0)

const ROUND: u32 = 0x0000_006f; // jal zero, 0

// Each hart adds 1 to the word at 0, by a load and a store.
const COUNT: Program = Program::Fixed(&[ZERO, LOAD, ADD, STORE, ROUND]);

// Each hart stores 1 there, and then 0.
const PULSE: Program = Program::Fixed(&[ZERO, ONE, STORE, CLEAR, ROUND]);

const EQUAL: Comparison = Comparison::Equal;

const UNEQUAL: Comparison = Comparison::Unequal;

const AT_MOST: Comparison = Comparison::Unsigned(Order::AtMost);

const AT_LEAST: Comparison = Comparison::Unsigned(Order::AtLeast);

const SIGNED_AT_LEAST: Comparison = Comparison::Signed(Order::AtLeast);

const MINUS_ONE: u32 = 0xffff_ffff;

const UNMAPPED: u32 = 0x8000;

// A program with a number of harts, what a word must be, and after how many turns it first isn't,
// if some schedule leads there.
struct Row {
    program: Program,
    inputs: &'static [u32],
    always: Always,
    first: Option<usize>,
}

#[rattlefmt::skip]
static ROWS: [Row; 11] = [
    Row { program: COUNT, inputs: &[0, 0], always: Always { word: 0, comparison: AT_MOST, number: 2 }, first: None },
    Row { program: COUNT, inputs: &[0, 0], always: Always { word: 0, comparison: AT_MOST, number: 1 }, first: Some(4) },
    Row { program: COUNT, inputs: &[0, 0, 0], always: Always { word: 0, comparison: AT_MOST, number: 2 }, first: Some(6) },
    Row { program: COUNT, inputs: &[0, 0], always: Always { word: 0, comparison: EQUAL, number: 0 }, first: Some(2) },
    Row { program: COUNT, inputs: &[0, 0], always: Always { word: 0, comparison: UNEQUAL, number: 0 }, first: Some(0) },
    Row { program: COUNT, inputs: &[0], always: Always { word: 0, comparison: SIGNED_AT_LEAST, number: MINUS_ONE }, first: None },
    Row { program: COUNT, inputs: &[0], always: Always { word: 0, comparison: AT_LEAST, number: MINUS_ONE }, first: Some(0) },
    Row { program: PULSE, inputs: &[0], always: Always { word: 0, comparison: EQUAL, number: 0 }, first: Some(1) },
    Row { program: PULSE, inputs: &[0, 0], always: Always { word: 0, comparison: AT_MOST, number: 1 }, first: None },
    Row { program: PULSE, inputs: &[0], always: Always { word: UNMAPPED, comparison: EQUAL, number: 0 }, first: None },
    Row { program: PULSE, inputs: &[0], always: Always { word: UNMAPPED, comparison: UNEQUAL, number: 0 }, first: Some(0) },
];

fn rows() -> &'static [Row] {
    &ROWS
}

// Whether the run of a list breaks what the row's word must be, as `run` judges it.
fn breaks(alloc: Global, row: &Row, choices: &[Choice]) -> Option<bool> {
    let image = program_image(alloc, row.program).ok()?;
    let inputs = Inputs::new(row.inputs).ok()?;
    let mut machine: Machine<FlatStore<Global>, Global> = Machine::start(
        alloc, &image, &inputs,
    ).ok()?;
    let harts = machine.harts();
    if choices.iter().any(|choice| choice.hart as usize >= harts) {
        return None;
    }
    let always = row.always;
    let mut judged = [Judged {
        property: Property::Always {
            word: always.word,
            comparison: always.comparison,
            number: always.number,
        },
        broken: None,
    }];
    judge_run(&mut machine, choices, &mut judged).ok()?;
    Some(judged[0].broken.is_some())
}

// Whether a search finds what the row says, and the list that it gives breaks it.
fn is_found(alloc: Global, row: &Row) -> Option<bool> {
    let image = program_image(alloc, row.program).ok()?;
    let inputs = Inputs::new(row.inputs).ok()?;
    let question = Question {
        expect: Expect {
            rule: None,
            exit: Exit::May,
        },
        always: Some(row.always),
        never_both: None,
        bounds: OwnBounds::NotAsked,
        refusals: ScRefusals::Never,
        most: 10_000,
    };
    match explore(alloc, &image, &inputs, question, &mut Unheard) {
        Ok(Answer::Holds(_)) => Some(row.first.is_none()),
        Ok(Answer::Fails(failing)) => {
            Some(row.first == Some(failing.turns) && breaks(alloc, row, &failing.choices)?)
        }
        Ok(Answer::Hangs(_) | Answer::Undecided) | Err(_) => None,
    }
}

#[test]
fn first_break_is_found(rt: HostRuntime) {
    'rows: for (number, row) in rows().iter().enumerate() {
        let found = is_found(rt.alloc(), row);
        assert!(rt; found == Some(true), "row {number}: {found:?}");
    }
}
