//! What no clause says of the library's objects on threads: that runs under plans of any kind come
//! to their end, and that a hart which is held holds up nobody. Their rules hold by law of each
//! history; here each history is done again beside.
use crate::images::{LR_SC, SWAP};
use crate::runs::{Order, run};
use hart_step::HartState;
use history::Entry;
use machine::{Choice, Machine};
use mem_flat::FlatStore;
use object_library::{Kind, Verdict, judge};
use std::alloc::{AllocError, Allocator, Global};
use std::sync::Wait;
use std::thread::Threads;
use test_images::{Holding, Program, pairs_of};
use thread_book::Book;
use thread_gate::OpenGate;

// How often a hart is chosen at most.
const BUDGET: u32 = 500;

// Adds the choices that an entry stands for, one by one.
fn push_choices<A: Allocator>(
    choices: &mut Vec<Choice, A>,
    entry: &Entry,
) -> Result<(), AllocError> {
    for _ in 0..entry.local {
        choices.push(Choice {
            hart: entry.hart,
            refuse: false,
        })?;
    }
    choices.push(Choice {
        hart: entry.hart,
        refuse: entry.refuse,
    })?;
    Ok(())
}

// The choices that a history stands for, one by one.
fn choices_of<A: Allocator>(alloc: A, history: &[Entry]) -> Result<Vec<Choice, A>, AllocError> {
    let mut choices = Vec::new(alloc);
    for entry in history {
        push_choices(&mut choices, entry)?;
    }
    Ok(choices)
}

// Whether the harts of a machine can take these choices, which they then have.
fn take<A: Allocator + Copy>(machine: &mut Machine<FlatStore<A>, A>, choices: &[Choice]) -> bool {
    for choice in choices {
        if choice.hart as usize >= machine.harts() || machine.step(*choice).is_err() {
            return false;
        }
    }
    true
}

// Whether the harts come to the same where they take these choices.
fn does_again<A: Allocator + Copy>(alloc: A, book: &Book<A>, choices: &[Choice]) -> bool {
    let Ok(machine) = Machine::start(alloc, book.image(), book.inputs()) else {
        return false;
    };
    let mut machine: Machine<FlatStore<A>, A> = machine;
    take(&mut machine, choices) && machine.ends() == book.machine().ends()
}

// An object: its kind, its harts' inputs, how many runs it has, and the bound of the harts in their
// plans.
struct Object {
    name: &'static str,
    kind: Kind,
    inputs: &'static [u32],
    runs: u32,
    bound: u32,
}

// How many runs each object has.
const RUNS: u32 = 1000;

// Objects of consensus.
#[rattlefmt::skip]
const CONSENSUS: [Object; 4] = [
    Object { name: "Swap", kind: Kind::Swap, inputs: &[7, 9], runs: RUNS, bound: 9 },
    Object { name: "Add", kind: Kind::Add, inputs: &[4, 6], runs: RUNS, bound: 9 },
    Object { name: "LrSc of four harts", kind: Kind::LrSc, inputs: &[3, 5, 7, 9], runs: RUNS,
        bound: 9 },
    Object { name: "LrSc of eight harts", kind: Kind::LrSc, inputs: &[1, 2, 3, 4, 5, 6, 7, 8],
        runs: RUNS, bound: 9 },
];

// Objects of adopt-commit.
#[rattlefmt::skip]
const ADOPT_COMMIT: [Object; 2] = [
    Object { name: "AdoptCommit", kind: Kind::AdoptCommit, inputs: &[2, 2, 5], runs: RUNS,
        bound: 9 },
    Object { name: "Rounds", kind: Kind::Rounds, inputs: &[2, 2, 5], runs: RUNS, bound: 9 },
];

// An object of as many harts as there may be, each with a thread.
const ALL_HARTS: Object = Object {
    name: "LrSc of all harts",
    kind: Kind::LrSc,
    inputs: &[
        1, 2, 3, 4, 5, 6, 7, 8, 9, 10, 11, 12, 13, 14, 15, 16, 17, 18, 19, 20, 21, 22, 23, 24, 25,
        26, 27, 28, 29, 30, 31, 32,
    ],
    runs: 50,
    bound: 33,
};

// Whether a run that has these choices has the same ends when it is done again, each hart has
// stopped, and the rule is kept.
fn is_right(alloc: Global, object: &Object, book: &Book<Global>, choices: &[Choice]) -> bool {
    let ends = book.machine().ends();
    does_again(alloc, book, choices)
        && !ends.iter().any(|hart| hart.state == HartState::Running)
        && judge(object.kind, object.inputs, choices, ends) == Verdict::Kept
}

// Runs an object under the plan of a number, does its history again and judges it; None where a run
// or memory is refused.
fn keeps_rule<R: Threads + Wait + Sync>(
    rt: &R,
    alloc: Global,
    object: &Object,
    number: u32,
) -> Option<bool> {
    let order = Order {
        program: Program::Object(object.kind),
        inputs: object.inputs,
        budget: BUDGET,
        total: None,
        pairs: &pairs_of(number, object.bound),
    };
    let book = run(rt, alloc, &order, &OpenGate).ok()?;
    let choices = choices_of(alloc, book.history()).ok()?;
    Some(is_right(alloc, object, &book, &choices))
}

// The first run of an object that doesn't keep its rule.
fn broken_run<R: Threads + Wait + Sync>(rt: &R, alloc: Global, object: &Object) -> Option<u32> {
    for number in 0..object.runs {
        if keeps_rule(rt, alloc, object, number) != Some(true) {
            return Some(number);
        }
    }
    None
}

#[test]
fn objects_of_consensus_keep_their_rule(rt: HostRuntime) {
    for object in &CONSENSUS {
        let name = object.name;
        assert!(rt; broken_run(&rt, rt.alloc(), object).is_none(), "{name}");
    }
}

#[test]
fn objects_of_adopt_commit_keep_their_rule(rt: HostRuntime) {
    for object in &ADOPT_COMMIT {
        let name = object.name;
        assert!(rt; broken_run(&rt, rt.alloc(), object).is_none(), "{name}");
    }
}

#[test]
fn thirty_two_harts_agree(rt: HostRuntime) {
    assert!(rt; broken_run(&rt, rt.alloc(), &ALL_HARTS).is_none());
}

// A run of two harts.
const TWO: Order = Order {
    program: SWAP,
    inputs: &[7, 9],
    budget: BUDGET,
    total: None,
    pairs: &[],
};

// Whether all harts of Swap exit with a value where one is held for as many segments as Swap needs.
fn all_take<R: Threads + Wait + Sync>(
    rt: &R,
    alloc: Global,
    held: u32,
    value: u32,
) -> Option<bool> {
    let gate = Holding::new(held, 3);
    let book = run(rt, alloc, &TWO, &gate).ok()?;
    let ends = book.machine().ends();
    Some(
        ends.iter()
            .all(|hart| hart.state == HartState::Exited(value)),
    )
}

#[test]
fn hart_that_is_held_takes_the_value_of_the_other(rt: HostRuntime) {
    for (held, value) in [(0, 9), (1, 7)] {
        assert!(rt;
            all_take(&rt, rt.alloc(), held, value) == Some(true),
            "held {held}"
        );
    }
}

// A run of four harts.
const FOUR: Order = Order {
    program: LR_SC,
    inputs: &[3, 5, 7, 9],
    budget: BUDGET,
    total: None,
    pairs: &[],
};

// Whether three harts of LrSc go on while one is held, and all stop.
fn go_on<R: Threads + Wait + Sync>(rt: &R, alloc: Global) -> Option<bool> {
    let gate = Holding::new(0, 9);
    let book = run(rt, alloc, &FOUR, &gate).ok()?;
    // Of nine segments three at most are not committed yet.
    let are_first = book.history().iter().take(6).all(|entry| entry.hart != 0);
    let ends = book.machine().ends();
    let have_stopped = ends.iter().all(|hart| hart.state != HartState::Running);
    Some(are_first && have_stopped)
}

#[test]
fn three_harts_go_on_while_one_is_held(rt: HostRuntime) {
    assert!(rt; go_on(&rt, rt.alloc()) == Some(true));
}
