//! The exact bounds on harts' own steps: of objects of the library, as a program that was written
//! independently finds them, and of worked programs.
use byte_io::Unheard;
use explore_space::{Answer, Bound, OwnBounds, Question, ScRefusals, explore};
use machine::Inputs;
use object_library::Kind;
use outcome::{Exit, Expect};
use std::alloc::Global;
use test_images::{Program, program_image};

const EXIT: u32 = 0x05d0_0893; // addi a7, zero, 93

const CALL: u32 = 0x0000_0073; // ecall

const ROUND: u32 = 0x0000_006f; // jal zero, 0

const OVER: u32 = 0x0005_1463; // bne a0, zero, 8

// Hart 0 goes round for ever; the others exit.
const ONE_GOES_ROUND: [u32; 4] = [OVER, ROUND, EXIT, CALL];

// A program with its inputs, and the bound of each hart.
struct Row {
    program: Program,
    refusals: ScRefusals,
    inputs: &'static [u32],
    bounds: &'static [Bound],
}

#[rattlefmt::skip]
const ROWS: [Row; 8] = [
    Row { program: Program::Object(Kind::Swap), refusals: ScRefusals::Also, inputs: &[7, 9], bounds: &[Bound::After(15), Bound::After(15)] },
    Row { program: Program::Object(Kind::Add), refusals: ScRefusals::Also, inputs: &[7, 9], bounds: &[Bound::After(15), Bound::After(15)] },
    Row { program: Program::Object(Kind::LrSc), refusals: ScRefusals::Never, inputs: &[7, 9], bounds: &[Bound::After(17), Bound::After(17)] },
    Row { program: Program::Object(Kind::LrSc), refusals: ScRefusals::Also, inputs: &[7, 9], bounds: &[Bound::Never, Bound::Never] },
    Row { program: Program::Object(Kind::AdoptCommit), refusals: ScRefusals::Never, inputs: &[7, 9], bounds: &[Bound::After(46), Bound::After(46)] },
    Row { program: Program::Fixed(&[EXIT, CALL]), refusals: ScRefusals::Also, inputs: &[0, 0], bounds: &[Bound::After(2), Bound::After(2)] },
    Row { program: Program::Fixed(&[ROUND]), refusals: ScRefusals::Also, inputs: &[0], bounds: &[Bound::Never] },
    Row { program: Program::Fixed(&ONE_GOES_ROUND), refusals: ScRefusals::Also, inputs: &[0, 0], bounds: &[Bound::Never, Bound::After(3)] },
];

// Whether the bounds are those of a row; nothing where a schedule fails or memory is refused.
fn has_bounds(alloc: Global, row: &Row) -> Option<bool> {
    let image = program_image(alloc, row.program).ok()?;
    let inputs = Inputs::new(row.inputs).ok()?;
    let expect = Expect {
        rule: None,
        exit: Exit::May,
    };
    let question = Question {
        expect,
        always: None,
        never_both: None,
        bounds: OwnBounds::Asked,
        refusals: row.refusals,
        most: 100_000,
    };
    match explore(alloc, &image, &inputs, question, &mut Unheard).ok()? {
        Answer::Holds(held) => Some(held.bounds.as_slice() == row.bounds),
        Answer::Fails(_) | Answer::Hangs(_) | Answer::Undecided => None,
    }
}

#[test]
fn bounds_are_exact(rt: HostRuntime) {
    for (number, row) in ROWS.iter().enumerate() {
        assert!(rt; has_bounds(rt.alloc(), row) == Some(true), "row {number}");
    }
}
