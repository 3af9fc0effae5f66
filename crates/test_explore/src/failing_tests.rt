//! Worked programs that fail in some schedule, and the number of turns in which they first do.
use byte_io::Unheard;
use explore_space::{Answer, OwnBounds, Question, ScRefusals, explore};
use hart_step::HartState;
use machine::{Choice, Inputs, Machine};
use mem_flat::FlatStore;
use object_library::{Kind, make_image};
use outcome::{Exit, Expect};
use std::alloc::Global;
use test_images::{Program, program_image};

const DATA: u32 = 0x0001_1437; // lui s0, 0x11

const ZERO: u32 = 0x0000_0437; // lui s0, 0

const SPLIT: u32 = 0x0005_1863; // bne a0, zero, 16

const ONE: u32 = 0x0010_0293; // addi t0, zero, 1

const STORE: u32 = 0x0054_2023; // sw t0, 0(s0)

const ROUND: u32 = 0x0000_006f; // jal zero, 0

const LOAD: u32 = 0x0004_2283; // lw t0, 0(s0)

const AGAIN: u32 = 0xfe02_8ee3; // beq t0, zero, -4

const BREAK: u32 = 0x0010_0073; // ebreak

// Hart 0 stores 1 and goes round for ever; the others wait for that and stop at an EBREAK. Of the
// text that may be written each step counts: four up to the store, and five of another hart. Of the
// other text each hart starts at its first load or store, and a turn goes up to the next: one of
// hart 0, and two of another, from its load and from the EBREAK.
const WAITS: [u32; 8] = [DATA, SPLIT, ONE, STORE, ROUND, LOAD, AGAIN, BREAK];

// The same at address 0.
const WAITS_AT_ZERO: [u32; 8] = [ZERO, SPLIT, ONE, STORE, ROUND, LOAD, AGAIN, BREAK];

// Hart 0 loads where it stored, so that the others wait for ever.
const WAITS_FOR_EVER: [u32; 8] = [DATA, SPLIT, ONE, LOAD, ROUND, LOAD, AGAIN, BREAK];

// A program, its inputs, and after how many turns a hart first faults, if one does.
struct Row {
    program: Program,
    inputs: &'static [u32],
    first: Option<usize>,
}

#[rattlefmt::skip]
const ROWS: [Row; 7] = [
    Row { program: Program::Writable(&WAITS), inputs: &[0], first: None },
    Row { program: Program::Writable(&WAITS), inputs: &[0, 0], first: Some(9) },
    Row { program: Program::Writable(&WAITS), inputs: &[0, 0, 0], first: Some(9) },
    Row { program: Program::Fixed(&WAITS_AT_ZERO), inputs: &[0, 0], first: Some(3) },
    Row { program: Program::Fixed(&WAITS_AT_ZERO), inputs: &[0, 0, 0], first: Some(3) },
    Row { program: Program::Writable(&WAITS_FOR_EVER), inputs: &[0, 0, 0], first: None },
    Row { program: Program::Fixed(&[BREAK]), inputs: &[0, 0, 0, 0], first: Some(1) },
];

// Whether a hart has faulted after the choices from a program's start.
fn faults(alloc: Global, row: &Row, choices: &[Choice]) -> Option<bool> {
    let image = program_image(alloc, row.program).ok()?;
    let inputs = Inputs::new(row.inputs).ok()?;
    let mut machine: Machine<FlatStore<Global>, Global> = Machine::start(
        alloc, &image, &inputs,
    ).ok()?;
    for choice in choices {
        if (choice.hart as usize) < machine.harts() {
            machine.step(*choice).ok()?;
        }
    }
    Some(
        machine
            .ends()
            .iter()
            .any(|hart| matches!(hart.state, HartState::Faulted(_))),
    )
}

// Whether a search finds what the row says, and the list that it gives fails.
fn is_found(alloc: Global, row: &Row) -> Option<bool> {
    let image = program_image(alloc, row.program).ok()?;
    let inputs = Inputs::new(row.inputs).ok()?;
    let expect = Expect {
        rule: None,
        exit: Exit::May,
    };
    let question = Question {
        expect,
        always: None,
        never_both: None,
        bounds: OwnBounds::NotAsked,
        refusals: ScRefusals::Also,
        most: 10_000,
    };
    match explore(alloc, &image, &inputs, question, &mut Unheard) {
        Ok(Answer::Holds(_)) => Some(row.first.is_none()),
        Ok(Answer::Fails(failing)) => {
            Some(row.first == Some(failing.turns) && faults(alloc, row, &failing.choices)?)
        }
        Ok(Answer::Hangs(_) | Answer::Undecided) | Err(_) => None,
    }
}

#[test]
fn first_failure_is_found(rt: HostRuntime) {
    for row in &ROWS {
        let harts = row.inputs.len();
        let first = row.first;
        assert!(rt;
            is_found(rt.alloc(), row) == Some(true),
            "{harts} harts, {first:?}"
        );
    }
}

// Harts of AdoptCommit with two inputs may adopt, and so break the rule of consensus.
#[test]
fn broken_rule_is_found(rt: HostRuntime) {
    let broken = breaks_consensus(rt.alloc(), &[7, 9]);
    assert!(rt; broken == Some(true), "7 and 9: {broken:?}");
    let alone = breaks_consensus(rt.alloc(), &[7]);
    assert!(rt; alone == Some(false), "7 alone: {alone:?}");
}

// Whether a search finds that harts of AdoptCommit break the rule of Swap.
fn breaks_consensus(alloc: Global, inputs: &[u32]) -> Option<bool> {
    let image = make_image(alloc, Kind::AdoptCommit).ok()?;
    let inputs = Inputs::new(inputs).ok()?;
    let expect = Expect {
        rule: Some(Kind::Swap),
        exit: Exit::May,
    };
    let question = Question {
        expect,
        always: None,
        never_both: None,
        bounds: OwnBounds::NotAsked,
        refusals: ScRefusals::Never,
        most: 100_000,
    };
    match explore(alloc, &image, &inputs, question, &mut Unheard) {
        Ok(Answer::Fails(_)) => Some(true),
        Ok(Answer::Holds(_)) => Some(false),
        Ok(Answer::Hangs(_) | Answer::Undecided) | Err(_) => None,
    }
}
