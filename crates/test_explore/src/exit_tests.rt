//! Worked programs with and without worlds that have no way out, and the number of turns in which
//! one is first reached.
use byte_io::Unheard;
use explore_space::{Answer, OwnBounds, Question, ScRefusals, explore};
use machine::Inputs;
use outcome::{Exit, Expect};
use std::alloc::Global;
use test_images::{Program, program_image};

const DATA: u32 = 0x0001_1437; // lui s0, 0x11

const SPLIT: u32 = 0x0005_1a63; // bne a0, zero, 20

const LOAD: u32 = 0x0004_2283; // lw t0, 0(s0)

const ROUND_UNLESS_ZERO: u32 = 0x0002_9063; // bne t0, zero, 0

const ROUND: u32 = 0x0000_006f; // jal zero, 0

const ONE: u32 = 0x0010_0293; // addi t0, zero, 1

const STORE: u32 = 0x0054_2023; // sw t0, 0(s0)

const EXIT: u32 = 0x05d0_0893; // addi a7, zero, 93

const CALL: u32 = 0x0000_0073; // ecall

// Hart 0 loads and goes round for ever unless it reads 0; the others store 1. Of the text that may
// be written each step counts: four up to the store, and from there on hart 0 can read 1 alone.
const TRAPS: [u32; 10] = [
    DATA,
    SPLIT,
    LOAD,
    ROUND_UNLESS_ZERO,
    EXIT,
    CALL,
    ONE,
    STORE,
    EXIT,
    CALL,
];

// A program, its inputs, and after how many turns a world first has no way out, if one has none.
struct Row {
    program: Program,
    inputs: &'static [u32],
    first: Option<usize>,
}

#[rattlefmt::skip]
const ROWS: [Row; 5] = [
    Row { program: Program::Fixed(&[EXIT, CALL]), inputs: &[0, 0], first: None },
    Row { program: Program::Fixed(&[ROUND]), inputs: &[0], first: Some(0) },
    Row { program: Program::Writable(&TRAPS), inputs: &[0], first: None },
    Row { program: Program::Writable(&TRAPS), inputs: &[0, 0], first: Some(4) },
    Row { program: Program::Writable(&TRAPS), inputs: &[0, 0, 0], first: Some(4) },
];

// What a search finds of a row.
fn answer_of(alloc: Global, row: &Row, exit: Exit) -> Option<Answer<Global>> {
    let image = program_image(alloc, row.program).ok()?;
    let inputs = Inputs::new(row.inputs).ok()?;
    let expect = Expect { rule: None, exit };
    let question = Question {
        expect,
        always: None,
        never_both: None,
        bounds: OwnBounds::NotAsked,
        refusals: ScRefusals::Also,
        most: 10_000,
    };
    explore(alloc, &image, &inputs, question, &mut Unheard).ok()
}

// Whether a search finds what the row says, and nothing of it if a hart may run on.
fn is_found(alloc: Global, row: &Row) -> Option<bool> {
    let may = answer_of(alloc, row, Exit::May)?;
    let holds = matches!(may, Answer::Holds(_));
    match answer_of(alloc, row, Exit::Must)? {
        Answer::Holds(_) => Some(holds && row.first.is_none()),
        Answer::Hangs(hanging) => Some(holds && row.first == Some(hanging.turns)),
        Answer::Fails(_) | Answer::Undecided => None,
    }
}

#[test]
fn first_world_without_a_way_out_is_found(rt: HostRuntime) {
    for row in &ROWS {
        let harts = row.inputs.len();
        let first = row.first;
        assert!(rt;
            is_found(rt.alloc(), row) == Some(true),
            "{harts} harts, {first:?}"
        );
    }
}
