//! Worked programs in which no two harts ever stand in a section of code at once, or do after some
//! number of turns.
use byte_io::Unheard;
use explore_space::{Answer, OwnBounds, Question, ScRefusals, Section, explore};
use machine::{Choice, Inputs, Machine};
use mem_flat::FlatStore;
use outcome::{Exit, Expect};
use property_judge::{Judged, Property, judge_run};
use std::alloc::Global;
use test_images::{PROGRAM_START, Program, program_image};

const ZERO: u32 = 0x0000_0437; // lui s0, 0

const ONE: u32 = 0x0010_0293; // addi t0, zero, 1

const SWAP: u32 = 0x0854_232f; // amoswap.w t1, t0, (s0)

const LOAD: u32 = 0x0004_2303; // lw t1, 0(s0)

const AGAIN: u32 = 0xfe03_1ee3; // bne t1, zero, -4

const STORE: u32 = 0x0054_2023; // sw t0, 0(s0)

const COUNT: u32 = 0x0013_8393; // addi t2, t2, 1

const CLEAR: u32 = 0x0004_2023; // sw zero, 0(s0)

const OVER: u32 = 0x0005_1463; // bne a0, zero, 8

const ROUND: u32 = 0x0000_006f; // jal zero, 0

const EXIT: u32 = 0x05d0_0893; // addi a7, zero, 93

const CALL: u32 = 0x0000_0073; // ecall

// A lock: the section is from 0x10 to 0x1c.
const LOCK: Program = Program::Fixed(&[ZERO, ONE, SWAP, AGAIN, COUNT, COUNT, CLEAR, EXIT, CALL]);

// A broken one, which looks at the word and stores it later: the section is from 0x14 to 0x1c.
const BROKEN: Program = Program::Fixed(&[ZERO, LOAD, AGAIN, ONE, STORE, COUNT, CLEAR, EXIT, CALL]);

// Each hart exits at once.
const EXITS: Program = Program::Fixed(&[EXIT, CALL]);

// Hart 0 goes round for ever; the others exit.
const ONE_GOES_ROUND: Program = Program::Fixed(&[OVER, ROUND, EXIT, CALL]);

// A program with a number of harts, a section, by the distances of its ends from the program's
// start, what else is asked, and after how many turns two harts first stand in the section, if some
// schedule leads there.
struct Row {
    program: Program,
    inputs: &'static [u32],
    section: (u32, u32),
    exit: Exit,
    first: Option<usize>,
}

#[rattlefmt::skip]
static ROWS: [Row; 17] = [
    Row { program: LOCK, inputs: &[0, 0], section: (0x10, 0x1c), exit: Exit::May, first: None },
    Row { program: LOCK, inputs: &[0, 0], section: (0x10, 0x1c), exit: Exit::Must, first: None },
    Row { program: LOCK, inputs: &[0, 0, 0], section: (0x10, 0x1c), exit: Exit::May, first: None },
    // Behind the release a hart has left the section, but for one address more.
    Row { program: LOCK, inputs: &[0, 0], section: (0x10, 0x20), exit: Exit::May, first: Some(5) },
    // Who waits stands in it too.
    Row { program: LOCK, inputs: &[0, 0], section: (0xc, 0x1c), exit: Exit::May, first: Some(2) },
    Row { program: BROKEN, inputs: &[0], section: (0x14, 0x1c), exit: Exit::May, first: None },
    Row { program: BROKEN, inputs: &[0, 0], section: (0x14, 0x1c), exit: Exit::May, first: Some(4) },
    Row { program: BROKEN, inputs: &[0, 0], section: (0x14, 0x1c), exit: Exit::Must, first: Some(4) },
    Row { program: BROKEN, inputs: &[0, 0, 0], section: (0x14, 0x1c), exit: Exit::May, first: Some(4) },
    // Harts that begin in it.
    Row { program: LOCK, inputs: &[0], section: (0, 4), exit: Exit::May, first: None },
    Row { program: LOCK, inputs: &[0, 0], section: (0, 4), exit: Exit::May, first: Some(0) },
    // Harts that come there by local steps, at once, and later.
    Row { program: EXITS, inputs: &[0, 0], section: (4, 8), exit: Exit::May, first: Some(2) },
    Row { program: BROKEN, inputs: &[0, 0], section: (0xc, 0x10), exit: Exit::May, first: Some(2) },
    // A hart that has stopped stands in no section.
    Row { program: EXITS, inputs: &[0, 0], section: (8, 12), exit: Exit::May, first: None },
    // A section that nobody enters, or one hart alone, or that is empty.
    Row { program: BROKEN, inputs: &[0, 0], section: (0x100, 0x200), exit: Exit::Must, first: None },
    Row { program: ONE_GOES_ROUND, inputs: &[0, 0], section: (4, 8), exit: Exit::May, first: None },
    Row { program: LOCK, inputs: &[0, 0], section: (0x1c, 0x10), exit: Exit::May, first: None },
];

fn rows() -> &'static [Row] {
    &ROWS
}

// The section of a row.
fn section_of(row: &Row) -> Section {
    Section {
        from: PROGRAM_START.wrapping_add(row.section.0),
        to: PROGRAM_START.wrapping_add(row.section.1),
    }
}

// Whether two harts stand in the row's section in the run of a list, as `run` judges it.
fn breaks(alloc: Global, row: &Row, choices: &[Choice]) -> Option<bool> {
    let image = program_image(alloc, row.program).ok()?;
    let inputs = Inputs::new(row.inputs).ok()?;
    let mut machine: Machine<FlatStore<Global>, Global> = Machine::start(
        alloc, &image, &inputs,
    ).ok()?;
    let harts = machine.harts();
    if choices.iter().any(|choice| choice.hart as usize >= harts) {
        return None;
    }
    let section = section_of(row);
    let mut judged = [Judged {
        property: Property::NeverBoth {
            from: section.from,
            to: section.to,
        },
        broken: None,
    }];
    judge_run(&mut machine, choices, &mut judged).ok()?;
    Some(judged[0].broken.is_some())
}

// What a search finds of a row.
fn answer_of(
    alloc: Global,
    row: &Row,
    never_both: Option<Section>,
    bounds: OwnBounds,
) -> Option<Answer<Global>> {
    let image = program_image(alloc, row.program).ok()?;
    let inputs = Inputs::new(row.inputs).ok()?;
    let expect = Expect {
        rule: None,
        exit: row.exit,
    };
    let question = Question {
        expect,
        always: None,
        never_both,
        bounds,
        refusals: ScRefusals::Never,
        most: 10_000,
    };
    explore(alloc, &image, &inputs, question, &mut Unheard).ok()
}

// Whether a search finds what the row says, and the list that it gives leads two harts there.
fn is_found(alloc: Global, row: &Row) -> Option<bool> {
    match answer_of(alloc, row, Some(section_of(row)), OwnBounds::NotAsked)? {
        Answer::Holds(_) => Some(row.first.is_none()),
        Answer::Fails(failing) => {
            Some(row.first == Some(failing.turns) && breaks(alloc, row, &failing.choices)?)
        }
        Answer::Hangs(_) | Answer::Undecided => None,
    }
}

#[test]
fn first_two_harts_in_a_section_are_found(rt: HostRuntime) {
    'rows: for (number, row) in rows().iter().enumerate() {
        let found = is_found(rt.alloc(), row);
        assert!(rt; found == Some(true), "row {number}: {found:?}");
    }
}

// Whether harts' bounds and the ends of runs are the same with the row's section as without one;
// nothing where two harts stand in it.
fn is_alike(alloc: Global, row: &Row) -> Option<bool> {
    if row.first.is_some() {
        return None;
    }
    let with = answer_of(alloc, row, Some(section_of(row)), OwnBounds::Asked)?;
    let without = answer_of(alloc, row, None, OwnBounds::Asked)?;
    match (with, without) {
        (Answer::Holds(a), Answer::Holds(b)) => Some(
            a.bounds.as_slice() == b.bounds.as_slice()
                && a.ends.as_slice().len() == b.ends.as_slice().len(),
        ),
        _ => None,
    }
}

#[test]
fn sections_change_no_bound(rt: HostRuntime) {
    'rows: for (number, row) in rows().iter().enumerate() {
        let alike = is_alike(rt.alloc(), row);
        let wanted = if row.first.is_none() {
            Some(true)
        } else {
            None
        };
        assert!(rt; alike == wanted, "row {number}: {alike:?}");
    }
}
