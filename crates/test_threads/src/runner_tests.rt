//! What no clause says of runs of threads: that they come to their end, that harts run at once,
//! worked histories, and refused memory.
use crate::images::{LR_SC, STORE_AND_LOAD, SWAP};
use crate::runs::{Order, run};
use hart_step::HartState;
use history::print_history;
use std::alloc::{Allocator, Global};
use std::sync::Wait;
use std::thread::Threads;
use test_images::{Meeting, Place, Program, STORE_OVER_NEXT, one_value};
use test_refusing::{Refusing, Shortage};
use thread_book::Book;
use thread_gate::OpenGate;
use thread_run::RunFault;

const STORING: Program = Program::Writable(&STORE_AND_LOAD);

// A run of one hart, the history, and what the hart exits with.
struct Worked {
    name: &'static str,
    order: Order<'static>,
    history: &'static str,
    value: Option<u32>,
}

#[rattlefmt::skip]
const WORKED: [Worked; 14] = [
    Worked { name: "LrSc, refused once",
        order: Order { program: LR_SC, inputs: &[6], budget: 100, total: None, pairs: &[(0, 7)] },
        history: "0+3 0+1 0+1! 0+1 0+1 0+4 0+2\n", value: Some(6) },
    Worked { name: "LrSc, another plan",
        order: Order { program: LR_SC, inputs: &[6], budget: 100, total: None,
            pairs: &[(0, 6), (1, 7)] },
        history: "0+3 0+1 0+1 0+4 0+2\n", value: Some(6) },
    Worked { name: "LrSc, budget 8",
        order: Order { program: LR_SC, inputs: &[6], budget: 8, total: None, pairs: &[(0, 7)] },
        history: "0+3 0+1 0+1!\n", value: None },
    Worked { name: "Swap, budget 0",
        order: Order { program: SWAP, inputs: &[7], budget: 0, total: None,
            pairs: &[] }, history: "",
        value: None },
    Worked { name: "Swap, budget 3",
        order: Order { program: SWAP, inputs: &[7], budget: 3, total: None,
            pairs: &[] }, history: "0+2\n",
        value: None },
    Worked { name: "Swap, budget 4",
        order: Order { program: SWAP, inputs: &[7], budget: 4, total: None,
            pairs: &[] }, history: "0+3\n",
        value: None },
    Worked { name: "Swap, total 0",
        order: Order { program: SWAP, inputs: &[7], budget: 100, total: Some(0), pairs: &[] },
        history: "", value: None },
    Worked { name: "Swap, total 1",
        order: Order { program: SWAP, inputs: &[7], budget: 100, total: Some(1), pairs: &[] },
        history: "0+0\n", value: None },
    Worked { name: "Swap, a total as large as the first local steps",
        order: Order { program: SWAP, inputs: &[7], budget: 100, total: Some(3), pairs: &[] },
        history: "0+2\n", value: None },
    Worked { name: "Swap, a total as large as the budget",
        order: Order { program: SWAP, inputs: &[7], budget: 4, total: Some(4), pairs: &[] },
        history: "0+3\n", value: None },
    Worked { name: "LrSc, a total that ends with a local step",
        order: Order { program: LR_SC, inputs: &[6], budget: 100, total: Some(7),
            pairs: &[(0, 7)] },
        history: "0+3 0+1 0+0\n", value: None },
    Worked { name: "LrSc, a total of more than all",
        order: Order { program: LR_SC, inputs: &[6], budget: 100, total: Some(1000),
            pairs: &[(0, 7)] },
        history: "0+3 0+1 0+1! 0+1 0+1 0+4 0+2\n", value: Some(6) },
    Worked { name: "store and load",
        order: Order { program: STORING, inputs: &[5], budget: 100, total: None, pairs: &[] },
        history: "0+0 0+0 0+0 0+0 0+0\n", value: Some(5) },
    Worked { name: "store over the next one",
        order: Order { program: STORE_OVER_NEXT, inputs: &[9], budget: 7, total: None, pairs: &[] },
        history: "0+0 0+0 0+0 0+0 0+0 0+0 0+0\n", value: Some(5) },
];

// Whether a run leaves its history and its value; None where memory or a thread is refused.
fn runs_so<R: Threads + Wait + Sync>(rt: &R, alloc: Global, worked: &Worked) -> Option<bool> {
    let book = run(rt, alloc, &worked.order, &OpenGate).ok()?;
    let text = print_history(alloc, book.history()).ok()?;
    let value = one_value(book.machine().ends());
    Some(text.as_str() == worked.history && value == worked.value)
}

#[test]
fn one_hart_leaves_this_history(rt: HostRuntime) {
    for worked in &WORKED {
        let name = worked.name;
        assert!(rt; runs_so(&rt, rt.alloc(), worked) == Some(true), "{name}");
    }
}

// A run of many harts, and the values of which one is left.
struct Many {
    name: &'static str,
    order: Order<'static>,
    values: &'static [u32],
}

#[rattlefmt::skip]
const MANY: [Many; 3] = [
    Many { name: "LrSc",
        order: Order { program: LR_SC, inputs: &[3, 5, 7, 9], budget: 100, total: None,
            pairs: &[] },
        values: &[3, 5, 7, 9] },
    Many { name: "Swap", order: Order { program: SWAP, inputs: &[7, 9], budget: 18, total: None,
            pairs: &[] },
        values: &[7, 9] },
    Many { name: "store over the next one",
        order: Order { program: STORE_OVER_NEXT, inputs: &[7, 9], budget: 7, total: None,
            pairs: &[] },
        values: &[5] },
];

// The one value that a run's harts exit with; None where there is none, or memory or a thread is
// refused.
fn value_of<R: Threads + Wait + Sync>(rt: &R, alloc: Global, order: &Order) -> Option<u32> {
    let book = run(rt, alloc, order, &OpenGate).ok()?;
    one_value(book.machine().ends())
}

// Whether a run's harts exit with one of its values.
fn agree<R: Threads + Wait + Sync>(rt: &R, alloc: Global, many: &Many) -> bool {
    let value = value_of(rt, alloc, &many.order);
    many.values.iter().any(|one| Some(*one) == value)
}

#[test]
fn many_harts_agree(rt: HostRuntime) {
    for many in &MANY {
        let name = many.name;
        for _ in 0..20 {
            assert!(rt; agree(&rt, rt.alloc(), many), "{name}");
        }
    }
}

// The number of choices in a book.
fn choices_in<A: Allocator>(book: &Book<A>) -> u64 {
    let mut count = 0u64;
    for entry in book.history() {
        count = count
            .saturating_add(u64::from(entry.local))
            .saturating_add(1);
    }
    count
}

// A run of four harts, none of which can stop within eight choices of its own.
const TOGETHER: Order = Order {
    program: LR_SC,
    inputs: &[3, 5, 7, 9],
    budget: 100,
    total: None,
    pairs: &[],
};

// The number of choices of all harts of that run with a total.
fn made_together<R: Threads + Wait + Sync>(rt: &R, alloc: Global, total: u32) -> Option<u64> {
    let order = Order {
        total: Some(total),
        ..TOGETHER
    };
    let book = run(rt, alloc, &order, &OpenGate).ok()?;
    Some(choices_in(&book))
}

#[test]
fn harts_that_go_on_use_a_total_up(rt: HostRuntime) {
    for total in 0..32u32 {
        assert!(rt;
            made_together(&rt, rt.alloc(), total) == Some(u64::from(total)),
            "total {total}"
        );
    }
}

// A run in which no hart is chosen.
const IDLE: Order = Order {
    program: SWAP,
    inputs: &[7, 9],
    budget: 0,
    total: None,
    pairs: &[],
};

// Whether no hart of a run has made a step.
fn is_at_start<R: Threads + Wait + Sync>(rt: &R, alloc: Global, order: &Order) -> Option<bool> {
    let book = run(rt, alloc, order, &OpenGate).ok()?;
    let ends = book.machine().ends();
    let are_at_start = ends.iter().all(|hart| hart.state == HartState::Running
        && hart.pc == 0x0001_0000);
    Some(are_at_start && book.history().is_empty())
}

#[test]
fn no_budget_leaves_the_opening_state(rt: HostRuntime) {
    assert!(rt; is_at_start(&rt, rt.alloc(), &IDLE) == Some(true));
}

// A run of two harts.
const MEETING: Order = Order {
    program: SWAP,
    inputs: &[7, 9],
    budget: 100,
    total: None,
    pairs: &[],
};

// How many harts of that run meet; None where it is refused.
fn met<R: Threads + Wait + Sync>(rt: &R, alloc: Global) -> Option<u64> {
    let gate = Meeting::new(Place::Segment);
    run(rt, alloc, &MEETING, &gate).ok()?;
    Some(gate.met())
}

#[test]
fn two_harts_meet(rt: HostRuntime) {
    assert!(rt; met(&rt, rt.alloc()) == Some(2));
}

// A run whose requests are refused.
const SHORT: Order = Order {
    program: LR_SC,
    inputs: &[3, 5],
    budget: 100,
    total: None,
    pairs: &[(0, 7)],
};

// The same with a total that ends within its second entry or a later one.
const SHORT_OF_ALL: Order = Order {
    program: LR_SC,
    inputs: &[3, 5],
    budget: 100,
    total: Some(5),
    pairs: &[(0, 7)],
};

// Whether a run has ended as it is to.
fn has_ended<A: Allocator>(order: &Order, book: &Book<A>) -> bool {
    match order.total {
        Some(total) => choices_in(book) == u64::from(total),
        None => one_value(book.machine().ends()).is_some(),
    }
}

// How a run ends whose requests are refused behind so many.
enum Turn {
    // It is told or not as it is to be, and a request was refused.
    Short,
    // It has its end, and no request was refused.
    Whole,
    // It hides want of memory, or tells it where none was refused, or its harts don't agree.
    Wrong,
}

// Makes such a run with requests refused behind so many.
fn short_run<R: Threads + Wait + Sync>(
    rt: &R,
    host: Global,
    order: &Order,
    shortage: Shortage,
    passed: u64,
) -> Turn {
    let heap = Refusing::of(host, passed, shortage);
    let is_right = match run(rt, &heap, order, &OpenGate) {
        Ok(book) => has_ended(order, &book),
        Err(fault) => fault == RunFault::Memory && heap.refused(),
    };
    if !is_right {
        return Turn::Wrong;
    }
    if heap.refused() {
        Turn::Short
    } else {
        Turn::Whole
    }
}

// Refuses each request in turn; the number of the first one at which a run ends wrongly, or the
// last where memory is asked for without end.
fn each_is_told<R: Threads + Wait + Sync>(
    rt: &R,
    host: Global,
    order: &Order,
    shortage: Shortage,
) -> Result<(), u64> {
    for passed in 0..1000u64 {
        match short_run(rt, host, order, shortage, passed) {
            Turn::Short => {}
            Turn::Whole => return Ok(()),
            Turn::Wrong => return Err(passed),
        }
    }
    Err(1000)
}

#[test]
fn each_refused_request_is_told(rt: HostRuntime) -> Result<(), u64> {
    each_is_told(&rt, rt.alloc(), &SHORT, Shortage::Once)?;
    each_is_told(&rt, rt.alloc(), &SHORT, Shortage::ForGood)
}

#[test]
fn each_refused_request_is_told_within_a_total(rt: HostRuntime) -> Result<(), u64> {
    each_is_told(&rt, rt.alloc(), &SHORT_OF_ALL, Shortage::Once)?;
    each_is_told(&rt, rt.alloc(), &SHORT_OF_ALL, Shortage::ForGood)
}
