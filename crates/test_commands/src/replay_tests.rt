//! Tests what no clause says of replays: example histories of the objects' files. `tests/cases` has
//! further ones.
use cmd_replay::replay_engine;
use cmd_run::{CommandFault, Exit, Expect, MemorySink, MemorySource, Status, deliver};
use object_library::Kind;
use std::alloc::Global;
use test_images::object_file;

// An object, the inputs, the rule, the history, and what is printed or the fault.
struct Worked {
    name: &'static str,
    kind: Kind,
    inputs: &'static [u32],
    rule: Option<Kind>,
    exit: Exit,
    history: &'static str,
    answer: Result<(&'static str, Status), CommandFault>,
}

// The ends are those that another simulator printed for the same files, hart by hart and step by
// step.
#[rattlefmt::skip]
static WORKED: [Worked; 14] = [
    Worked { name: "hart_1_alone_then_hart_0", kind: Kind::Swap, inputs: &[7, 9], rule: Some(Kind::Swap), exit: Exit::May, history: "1+10 0+14",
        answer: Ok(("hart 0 exited a0 00000009 a1 00000001\nhart 1 exited a0 00000009 a1 00000001\nverdict kept\n", Status::Done)) },
    Worked { name: "no_rule_no_verdict", kind: Kind::Swap, inputs: &[7, 9], rule: None, exit: Exit::May, history: "1+10\n0+14\n",
        answer: Ok(("hart 0 exited a0 00000009 a1 00000001\nhart 1 exited a0 00000009 a1 00000001\n", Status::Done)) },
    Worked { name: "the_loser_takes_15_steps", kind: Kind::Swap, inputs: &[7, 9], rule: Some(Kind::Swap), exit: Exit::May, history: "1+10 0+13",
        answer: Ok(("hart 0 running pc 00010038\nhart 1 exited a0 00000009 a1 00000001\nverdict kept\n", Status::Done)) },
    Worked { name: "the_winner_takes_11_steps", kind: Kind::Swap, inputs: &[7, 9], rule: Some(Kind::Swap), exit: Exit::May, history: "1+9 0+14",
        answer: Ok(("hart 0 exited a0 00000009 a1 00000001\nhart 1 running pc 00010038\nverdict kept\n", Status::Done)) },
    Worked { name: "third_hart_of_swap_faults", kind: Kind::Swap, inputs: &[7, 9, 5], rule: Some(Kind::Swap), exit: Exit::May, history: "2+3",
        answer: Ok(("hart 0 running pc 00010000\nhart 1 running pc 00010000\nhart 2 faulted StoreAccess pc 0001000c\nverdict broken\n", Status::Broken)) },
    Worked { name: "without_a_rule_it_is_a_fault", kind: Kind::Swap, inputs: &[7, 9, 5], rule: None, exit: Exit::May, history: "2+3",
        answer: Ok(("hart 0 running pc 00010000\nhart 1 running pc 00010000\nhart 2 faulted StoreAccess pc 0001000c\n", Status::Faulted)) },
    Worked { name: "two_of_three_decide", kind: Kind::LrSc, inputs: &[4, 5, 6], rule: Some(Kind::LrSc), exit: Exit::May, history: "2+15 0+12",
        answer: Ok(("hart 0 exited a0 00000006 a1 00000001\nhart 1 running pc 00010000\nhart 2 exited a0 00000006 a1 00000001\nverdict kept\n", Status::Done)) },
    Worked { name: "a_refusal_costs_four_steps", kind: Kind::LrSc, inputs: &[4, 5, 6], rule: Some(Kind::LrSc), exit: Exit::May, history: "2+7! 2+11",
        answer: Ok(("hart 0 running pc 00010000\nhart 1 running pc 00010000\nhart 2 exited a0 00000006 a1 00000001\nverdict kept\n", Status::Done)) },
    Worked { name: "a_hart_that_has_ended_stays", kind: Kind::Swap, inputs: &[7], rule: None, exit: Exit::May, history: "0+100000 0+0!",
        answer: Ok(("hart 0 exited a0 00000007 a1 00000001\n", Status::Done)) },
    Worked { name: "the_loser_has_to_exit", kind: Kind::Swap, inputs: &[7, 9], rule: None, exit: Exit::Must, history: "1+10 0+13",
        answer: Ok(("hart 0 running pc 00010038\nhart 1 exited a0 00000009 a1 00000001\n", Status::Faulted)) },
    Worked { name: "the_loser_exits", kind: Kind::Swap, inputs: &[7, 9], rule: Some(Kind::Swap), exit: Exit::Must, history: "1+10 0+14",
        answer: Ok(("hart 0 exited a0 00000009 a1 00000001\nhart 1 exited a0 00000009 a1 00000001\nverdict kept\n", Status::Done)) },
    Worked { name: "a_broken_rule_tells_more_than_a_hart_that_runs", kind: Kind::Swap, inputs: &[7, 9, 5], rule: Some(Kind::Swap), exit: Exit::Must, history: "2+3",
        answer: Ok(("hart 0 running pc 00010000\nhart 1 running pc 00010000\nhart 2 faulted StoreAccess pc 0001000c\nverdict broken\n", Status::Broken)) },
    Worked { name: "no_harts_before_a_bad_entry", kind: Kind::Swap, inputs: &[], rule: None, exit: Exit::May, history: "x",
        answer: Err(CommandFault::NoHarts) },
    Worked { name: "thirty_three_harts_before_a_bad_entry", kind: Kind::Swap, inputs: &[1; 33], rule: None, exit: Exit::May, history: "x",
        answer: Err(CommandFault::TooManyHarts) },
];

// Whether a replay of an object's file has this end, or this fault, with nothing printed; `None` if
// there is no file.
fn is_worked(alloc: Global, row: &Worked) -> Option<bool> {
    let file = object_file(alloc, row.kind).ok()?;
    let mut program = MemorySource::new(&file);
    let mut history = MemorySource::new(row.history.as_bytes());
    let mut sink = MemorySink::new(alloc);
    let expect = Expect {
        rule: row.rule,
        exit: row.exit,
    };
    let answer = replay_engine(alloc, row.inputs, expect, &mut program, &mut history);
    let ending = deliver(&mut sink, answer);
    Some(match row.answer {
        Ok((text, status)) => ending == Ok(status) && sink.bytes() == text.as_bytes(),
        Err(fault) => ending == Err(fault) && sink.bytes().is_empty(),
    })
}

// The first history that isn't answered as its row says.
fn first_wrong(alloc: Global, rows: &[Worked]) -> Option<&'static str> {
    'rows: for row in rows {
        if is_worked(alloc, row) != Some(true) {
            return Some(row.name);
        }
    }
    None
}

#[test]
fn worked_histories_are_printed(rt: HostRuntime) {
    if let Some(name) = first_wrong(rt.alloc(), &WORKED) {
        assert!(rt; false, "{name}");
    }
}
