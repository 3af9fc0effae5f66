//! Worked programs whose harts have words of their own: how many places turns reach, as a program
//! that was written independently counts them, how many ends runs have, the bounds of harts, and
//! after how many turns a run first fails or hangs.
use byte_io::Unheard;
use explore_space::{Always, Answer, Bound, OwnBounds, Question, ScRefusals, Section, explore};
use hart_step::HartState;
use machine::{Choice, Inputs, Machine};
use mem_flat::FlatStore;
use outcome::{Exit, Expect};
use property_judge::{Comparison, Order};
use std::alloc::Global;
use test_images::{PROGRAM_START, Program, program_image};

const SHIFT: u32 = 0x0025_1493; // slli s1, a0, 2

const KEEP: u32 = 0x00a4_a823; // sw a0, 16(s1)

const FETCH: u32 = 0x0104_a283; // lw t0, 16(s1)

const ADD: u32 = 0x0012_8293; // addi t0, t0, 1

const STORE: u32 = 0x0054_a823; // sw t0, 16(s1)

const SHARE: u32 = 0x0050_2023; // sw t0, 0(zero)

const LOOK: u32 = 0x0000_2303; // lw t1, 0(zero)

const CLEAR: u32 = 0x0000_2023; // sw zero, 0(zero)

const RESULT: u32 = 0x0000_2503; // lw a0, 0(zero)

const SAME: u32 = 0x0062_8463; // beq t0, t1, 8

const SPLIT: u32 = 0x0005_1a63; // bne a0, zero, 20

const SEVEN: u32 = 0x0070_0293; // addi t0, zero, 7

const GIVE: u32 = 0x0050_2823; // sw t0, 16(zero)

const UNSEEN: u32 = 0x0003_0463; // beq t1, zero, 8

const PAST: u32 = 0x0003_0863; // beq t1, zero, 16

const TAKE: u32 = 0x0100_2503; // lw a0, 16(zero)

const FULL: u32 = 0x0005_1463; // bne a0, zero, 8

const BASE: u32 = 0x0104_8493; // addi s1, s1, 16

const RESERVE: u32 = 0x1004_a2af; // lr.w t0, (s1)

const TRY: u32 = 0x1854_a32f; // sc.w t1, t0, (s1)

const RETRY: u32 = 0xfe03_1ae3; // bne t1, zero, -12

const MASK: u32 = 0x0072_f293; // andi t0, t0, 7

const BACK: u32 = 0xff1f_f06f; // jal zero, -16

const LOCK_WORD: u32 = 0x0010_0393; // addi t2, zero, 1

const SWAP: u32 = 0x0870_232f; // amoswap.w t1, t2, (zero)

const AGAIN: u32 = 0xfe03_1ee3; // bne t1, zero, -4

const ROUND_UNLESS_ZERO: u32 = 0x0003_1063; // bne t1, zero, 0

const ONE: u32 = 0x0010_0293; // addi t0, zero, 1

const BREAK: u32 = 0x0010_0073; // ebreak

const HERE: u32 = 0x0000_0497; // auipc s1, 0

const CODE: u32 = 0x0004_a283; // lw t0, 0(s1)

const NEXT: u32 = 0x0044_a303; // lw t1, 4(s1)

const EXIT: u32 = 0x05d0_0893; // addi a7, zero, 93

const CALL: u32 = 0x0000_0073; // ecall

// Each hart keeps its number in a word of its own, shares it, adds 1 to its word, and exits with
// what is shared then.
const OWN: Program = Program::Fixed(&[
    SHIFT, KEEP, FETCH, SHARE, FETCH, ADD, STORE, RESULT, EXIT, CALL,
]);

// Each hart keeps and shares its number so, and stops at an EBREAK if another has shared its own
// since. Its turns are KEEP and FETCH; SHARE; LOOK, FETCH and SAME; BREAK. So the first failure is
// four turns of one hart and two of another.
const SPILLS: Program = Program::Fixed(&[
    SHIFT, KEEP, FETCH, SHARE, LOOK, FETCH, SAME, BREAK, EXIT, CALL,
]);

// Hart 0 raises a flag, stores 7 into a word, and takes the flag back; the others exit with that
// word if they see the flag. By turns they don't, nor does one alone: so the word is taken for hart
// 0's, but they may load a 0 there too.
const SEEN: Program = Program::Fixed(&[
    SPLIT, SEVEN, SHARE, GIVE, CLEAR, LOOK, UNSEEN, TAKE, EXIT, CALL,
]);

// The same, and they stop at an EBREAK if they do.
const SEEN_BREAKS: Program = Program::Fixed(&[
    SPLIT, SEVEN, SHARE, GIVE, CLEAR, LOOK, PAST, TAKE, FULL, BREAK, EXIT, CALL,
]);

// Each hart adds 1 to a word of its own by LR and SC, and tries again where the SC is refused.
const RESERVES: Program = Program::Fixed(&[SHIFT, BASE, RESERVE, ADD, TRY, RETRY, EXIT, CALL]);

// Each hart counts round to 8 in a word of its own. A turn is 65 of these steps, so it goes round
// four times and comes a step further.
const ROUNDS: Program = Program::Fixed(&[SHIFT, FETCH, ADD, MASK, STORE, BACK]);

// A lock, in whose section each hart adds 1 to a word of its own: from 0x10 to 0x20.
const LOCK: Program = Program::Fixed(&[
    SHIFT, LOCK_WORD, SWAP, AGAIN, FETCH, ADD, STORE, CLEAR, EXIT, CALL,
]);

// Each hart loads two words of its code, which nobody can write, shares one, and loads it again
// before it exits with what is shared then.
const CONSTANTS: Program = Program::Fixed(&[HERE, CODE, NEXT, SHARE, CODE, RESULT, EXIT, CALL]);

// Hart 0 goes round for ever if it loads what the others store: the second turn of each, behind its
// steps on a word of its own.
const TRAPS: Program = Program::Fixed(&[
    SHIFT,
    KEEP,
    FETCH,
    SPLIT,
    LOOK,
    ROUND_UNLESS_ZERO,
    EXIT,
    CALL,
    ONE,
    SHARE,
    EXIT,
    CALL,
]);

// What is asked of a program; the section's ends are distances from the program's start.
#[derive(Clone, Copy)]
struct Asked {
    always: Option<Always>,
    section: Option<(u32, u32)>,
    exit: Exit,
    refusals: ScRefusals,
}

const PLAIN: Asked = Asked {
    always: None,
    section: None,
    exit: Exit::May,
    refusals: ScRefusals::Never,
};

const EXITS: Asked = Asked {
    always: None,
    section: None,
    exit: Exit::Must,
    refusals: ScRefusals::Never,
};

const REFUSED: Asked = Asked {
    always: None,
    section: None,
    exit: Exit::May,
    refusals: ScRefusals::Also,
};

// Hart 1's word is at most 2, so it belongs to no hart.
const JUDGED: Asked = Asked {
    always: Some(Always {
        word: 20,
        comparison: Comparison::Unsigned(Order::AtMost),
        number: 2,
    }),
    section: None,
    exit: Exit::May,
    refusals: ScRefusals::Never,
};

const IN_SECTION: Asked = Asked {
    always: None,
    section: Some((0x10, 0x20)),
    exit: Exit::May,
    refusals: ScRefusals::Never,
};

// What a search finds.
#[derive(Clone, Copy)]
enum Found {
    // No run fails or hangs: how many places and ends there are, and the bound of each hart.
    Holds(usize, usize, &'static [Bound]),
    // A run first fails after so many turns.
    Fails(usize),
    // A world first has no way out after so many turns.
    Hangs(usize),
}

// A program with its inputs, what is asked of it, and what a search finds.
struct Row {
    program: Program,
    inputs: &'static [u32],
    asked: Asked,
    found: Found,
}

#[rattlefmt::skip]
static ROWS: [Row; 22] = [
    Row { program: OWN, inputs: &[0, 0], asked: PLAIN, found: Found::Holds(46, 3, &[Bound::After(10), Bound::After(10)]) },
    Row { program: OWN, inputs: &[0, 0, 0], asked: PLAIN, found: Found::Holds(629, 16, &[Bound::After(10), Bound::After(10), Bound::After(10)]) },
    Row { program: OWN, inputs: &[0, 0], asked: EXITS, found: Found::Holds(46, 3, &[Bound::After(10), Bound::After(10)]) },
    Row { program: OWN, inputs: &[0, 0], asked: JUDGED, found: Found::Holds(71, 3, &[Bound::After(10), Bound::After(10)]) },
    Row { program: SPILLS, inputs: &[0], asked: PLAIN, found: Found::Holds(3, 1, &[Bound::After(9)]) },
    Row { program: SPILLS, inputs: &[0, 0], asked: PLAIN, found: Found::Fails(6) },
    Row { program: SPILLS, inputs: &[0, 0, 0], asked: PLAIN, found: Found::Fails(6) },
    // The guess is wrong here.
    Row { program: SEEN, inputs: &[0, 0], asked: PLAIN, found: Found::Holds(41, 3, &[Bound::After(9), Bound::After(6)]) },
    Row { program: SEEN, inputs: &[0, 0, 0], asked: EXITS, found: Found::Holds(301, 9, &[Bound::After(9), Bound::After(6), Bound::After(6)]) },
    Row { program: SEEN_BREAKS, inputs: &[0], asked: PLAIN, found: Found::Holds(3, 1, &[Bound::After(9)]) },
    Row { program: SEEN_BREAKS, inputs: &[0, 0], asked: PLAIN, found: Found::Fails(4) },
    // A refusal changes a store-conditional on an own word too.
    Row { program: RESERVES, inputs: &[0, 0], asked: PLAIN, found: Found::Holds(16, 1, &[Bound::After(8), Bound::After(8)]) },
    Row { program: RESERVES, inputs: &[0, 0], asked: REFUSED, found: Found::Holds(25, 1, &[Bound::Never, Bound::Never]) },
    Row { program: ROUNDS, inputs: &[0], asked: PLAIN, found: Found::Holds(17, 0, &[Bound::Never]) },
    Row { program: ROUNDS, inputs: &[0, 0], asked: EXITS, found: Found::Hangs(0) },
    // In a section each step is a turn of its own.
    Row { program: LOCK, inputs: &[0, 0], asked: PLAIN, found: Found::Holds(21, 1, &[Bound::Never, Bound::Never]) },
    Row { program: LOCK, inputs: &[0, 0], asked: IN_SECTION, found: Found::Holds(45, 1, &[Bound::Never, Bound::Never]) },
    // A load of a word that can't be written needs no turn.
    Row { program: CONSTANTS, inputs: &[0], asked: PLAIN, found: Found::Holds(3, 1, &[Bound::After(8)]) },
    Row { program: CONSTANTS, inputs: &[0, 0], asked: PLAIN, found: Found::Holds(25, 1, &[Bound::After(8), Bound::After(8)]) },
    Row { program: TRAPS, inputs: &[0], asked: EXITS, found: Found::Holds(3, 1, &[Bound::After(8)]) },
    Row { program: TRAPS, inputs: &[0, 0], asked: PLAIN, found: Found::Holds(18, 1, &[Bound::Never, Bound::After(8)]) },
    Row { program: TRAPS, inputs: &[0, 0, 0], asked: EXITS, found: Found::Hangs(2) },
];

fn rows() -> &'static [Row] {
    &ROWS
}

// The section of a row, if one is asked for.
fn section_of(row: &Row) -> Option<Section> {
    let (from, to) = row.asked.section?;
    Some(Section {
        from: PROGRAM_START.wrapping_add(from),
        to: PROGRAM_START.wrapping_add(to),
    })
}

// Whether a hart has faulted after the choices from a program's start.
fn faults(alloc: Global, row: &Row, choices: &[Choice]) -> Option<bool> {
    let image = program_image(alloc, row.program).ok()?;
    let inputs = Inputs::new(row.inputs).ok()?;
    let mut machine: Machine<FlatStore<Global>, Global> = Machine::start(
        alloc, &image, &inputs,
    ).ok()?;
    for choice in choices {
        if (choice.hart as usize) < machine.harts() {
            machine.step(*choice).ok()?;
        }
    }
    Some(
        machine
            .ends()
            .iter()
            .any(|hart| matches!(hart.state, HartState::Faulted(_))),
    )
}

// What a search finds of a row.
fn answer_of(alloc: Global, row: &Row) -> Option<Answer<Global>> {
    let image = program_image(alloc, row.program).ok()?;
    let inputs = Inputs::new(row.inputs).ok()?;
    let expect = Expect {
        rule: None,
        exit: row.asked.exit,
    };
    let question = Question {
        expect,
        always: row.asked.always,
        never_both: section_of(row),
        bounds: OwnBounds::Asked,
        refusals: row.asked.refusals,
        most: 10_000,
    };
    explore(alloc, &image, &inputs, question, &mut Unheard).ok()
}

// Whether it is what the row says, and a list that is given fails.
fn is_found(alloc: Global, row: &Row) -> Option<bool> {
    match (answer_of(alloc, row)?, row.found) {
        (Answer::Holds(held), Found::Holds(places, ends, bounds)) => Some(
            held.places == places
                && held.ends.as_slice().len() == ends
                && held.bounds.as_slice() == bounds,
        ),
        (Answer::Fails(failing), Found::Fails(turns)) => {
            Some(failing.turns == turns && faults(alloc, row, &failing.choices)?)
        }
        (Answer::Hangs(hanging), Found::Hangs(turns)) => Some(hanging.turns == turns),
        _ => Some(false),
    }
}

#[test]
fn own_words_need_no_turns(rt: HostRuntime) {
    'rows: for (number, row) in rows().iter().enumerate() {
        let found = is_found(rt.alloc(), row);
        assert!(rt; found == Some(true), "row {number}: {found:?}");
    }
}
