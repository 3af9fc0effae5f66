//! Tests what no clause says: the objects' files, run under their rules. `tests/cases` has further
//! runs.
use cmd_run::{
    CommandFault, Exit, Expect, FileView, MemorySink, MemorySource, ProgramForm, Status, deliver,
    file_engine, run_engine,
};
use object_library::Kind;
use std::alloc::Global;
use test_images::object_file;

// An object, the inputs, the rule, the choices, and what is printed.
struct Worked {
    name: &'static str,
    kind: Kind,
    inputs: &'static [u32],
    rule: Option<Kind>,
    choices: &'static str,
    text: &'static str,
    status: Status,
}

// The ends are those that another simulator printed for the same files.
#[rattlefmt::skip]
static WORKED: [Worked; 11] = [
    Worked { name: "the_same_of_add", kind: Kind::Add, inputs: &[7, 9], rule: Some(Kind::Add),
        choices: "1 1 1 1 1 1 1 1 1 1 1 0 0 0 0 0 0 0 0 0 0 0 0 0 0 0",
        text: "hart 0 exited a0 00000009 a1 00000001\nhart 1 exited a0 00000009 a1 00000001\nverdict kept\n", status: Status::Done },
    Worked { name: "the_loser_takes_15_steps", kind: Kind::Swap, inputs: &[7, 9], rule: Some(Kind::Swap),
        choices: "1 1 1 1 1 1 1 1 1 1 1 0 0 0 0 0 0 0 0 0 0 0 0 0 0",
        text: "hart 0 running pc 00010038\nhart 1 exited a0 00000009 a1 00000001\nverdict kept\n", status: Status::Done },
    Worked { name: "the_winner_takes_11_steps", kind: Kind::Swap, inputs: &[7, 9], rule: Some(Kind::Swap),
        choices: "1 1 1 1 1 1 1 1 1 1 0 0 0 0 0 0 0 0 0 0 0 0 0 0 0",
        text: "hart 0 exited a0 00000009 a1 00000001\nhart 1 running pc 00010038\nverdict kept\n", status: Status::Done },
    Worked { name: "two_of_three_decide", kind: Kind::LrSc, inputs: &[4, 5, 6], rule: Some(Kind::LrSc),
        choices: "2 2 2 2 2 2 2 2 2 2 2 2 2 2 2 2 0 0 0 0 0 0 0 0 0 0 0 0 0",
        text: "hart 0 exited a0 00000006 a1 00000001\nhart 1 running pc 00010000\nhart 2 exited a0 00000006 a1 00000001\nverdict kept\n", status: Status::Done },
    Worked { name: "a_refusal_costs_four_steps", kind: Kind::LrSc, inputs: &[4, 5, 6], rule: Some(Kind::LrSc),
        choices: "2 2 2 2 2 2 2 2! 2 2 2 2 2 2 2 2 2 2 2 2",
        text: "hart 0 running pc 00010000\nhart 1 running pc 00010000\nhart 2 exited a0 00000006 a1 00000001\nverdict kept\n", status: Status::Done },
    Worked { name: "strict_turns_adopt", kind: Kind::AdoptCommit, inputs: &[0, 0xffff_ffff], rule: Some(Kind::AdoptCommit),
        choices: "0 1 0 1 0 1 0 1 0 1 0 1 0 1 0 1 0 1 0 1 0 1 0 1 0 1 0 1 0 1 0 1 0 1 0 1 0 1 0 1 0 1 0 1 0 1 0 1 0 1 0 1 0 1 0 1 0 1 0 1 0 1 0 1 0 1 0 1 0 1 0 1 0 1 0 1 0 1 0 1 0 1 0 1 0 1 0 1 0 1 0 1 0 1 0 1 0 1 0 1 0 1 0 1 0 1 0 1 0 1 0 1 0 1 0 1 0 1",
        text: "hart 0 exited a0 00000000 a1 00000000\nhart 1 exited a0 ffffffff a1 00000000\nverdict kept\n", status: Status::Done },
    Worked { name: "one_after_the_other_commits", kind: Kind::AdoptCommit, inputs: &[0, 0xffff_ffff], rule: Some(Kind::AdoptCommit),
        choices: "0 0 0 0 0 0 0 0 0 0 0 0 0 0 0 0 0 0 0 0 0 0 0 0 0 0 0 0 0 0 0 0 0 0 0 0 0 0 0 1 1 1 1 1 1 1 1 1 1 1 1 1 1 1 1 1 1 1 1 1 1 1 1 1 1 1 1 1 1 1 1 1 1 1 1 1 1 1 1 1 1 1 1 1 1 1 1 1 1 1 1 1 1 1 1 1 1 1 1",
        text: "hart 0 exited a0 00000000 a1 00000001\nhart 1 exited a0 00000000 a1 00000000\nverdict kept\n", status: Status::Done },
    Worked { name: "alone_of_two_takes_39_steps", kind: Kind::AdoptCommit, inputs: &[0, 0xffff_ffff], rule: Some(Kind::AdoptCommit),
        choices: "0 0 0 0 0 0 0 0 0 0 0 0 0 0 0 0 0 0 0 0 0 0 0 0 0 0 0 0 0 0 0 0 0 0 0 0 0 0",
        text: "hart 0 running pc 00010084\nhart 1 running pc 00010000\nverdict kept\n", status: Status::Done },
    Worked { name: "alone_takes_31_steps", kind: Kind::AdoptCommit, inputs: &[5], rule: Some(Kind::AdoptCommit),
        choices: "0 0 0 0 0 0 0 0 0 0 0 0 0 0 0 0 0 0 0 0 0 0 0 0 0 0 0 0 0 0 0",
        text: "hart 0 exited a0 00000005 a1 00000001\nverdict kept\n", status: Status::Done },
    Worked { name: "the_rule_of_rounds_is_that_of_adopt", kind: Kind::Rounds, inputs: &[0, 0xffff_ffff], rule: Some(Kind::AdoptCommit), choices: "1*42 0*87",
        text: "hart 0 exited a0 ffffffff a1 00000001\nhart 1 exited a0 ffffffff a1 00000001\nverdict kept\n", status: Status::Done },
    Worked { name: "an_adopted_value_is_not_decided", kind: Kind::AdoptCommit, inputs: &[0, 0xffff_ffff], rule: Some(Kind::LrSc),
        choices: "0 0 0 0 0 0 0 0 0 0 0 0 0 0 0 0 0 0 0 0 0 0 0 0 0 0 0 0 0 0 0 0 0 0 0 0 0 0 0 1 1 1 1 1 1 1 1 1 1 1 1 1 1 1 1 1 1 1 1 1 1 1 1 1 1 1 1 1 1 1 1 1 1 1 1 1 1 1 1 1 1 1 1 1 1 1 1 1 1 1 1 1 1 1 1 1 1 1 1",
        text: "hart 0 exited a0 00000000 a1 00000001\nhart 1 exited a0 00000000 a1 00000000\nverdict broken\n", status: Status::Broken },
];

// The result of a run of an object's file, and its output; `None` if there is no file.
fn printed(
    alloc: Global,
    kind: Kind,
    inputs: &[u32],
    rule: Option<Kind>,
    text: &str,
) -> Option<(Result<Status, CommandFault>, MemorySink<Global>)> {
    let file = object_file(alloc, kind).ok()?;
    let mut program = MemorySource::new(&file);
    let mut choices = MemorySource::new(text.as_bytes());
    let mut sink = MemorySink::new(alloc);
    let expect = Expect {
        rule,
        exit: Exit::May,
    };
    let answer = run_engine(
        alloc,
        ProgramForm::Elf,
        inputs,
        expect,
        &mut program,
        &mut choices,
    );
    let ending = deliver(&mut sink, answer);
    Some((ending, sink))
}

// Whether the run of an object's file ends in this way; `None` if there is no file.
fn is_worked(alloc: Global, row: &Worked) -> Option<bool> {
    let (ending, sink) = printed(alloc, row.kind, row.inputs, row.rule, row.choices)?;
    Some(ending == Ok(row.status) && sink.bytes() == row.text.as_bytes())
}

#[test]
fn objects_end_as_worked(rt: HostRuntime) {
    for row in &WORKED {
        let name = row.name;
        assert!(rt; is_worked(rt.alloc(), row) == Some(true), "{name}");
    }
}

// Texts with counts, and the lists that they spell, written out.
#[rattlefmt::skip]
const WRITTEN_OUT: [(&str, &str); 5] = [
    ("0*3 1*2", "0 0 0 1 1"),
    ("1*11 0*15", "1 1 1 1 1 1 1 1 1 1 1 0 0 0 0 0 0 0 0 0 0 0 0 0 0 0"),
    ("1*7 1!*1 0*6 0!*3 0*2 1*9", "1 1 1 1 1 1 1 1! 0 0 0 0 0 0 0! 0! 0! 0 0 1 1 1 1 1 1 1 1 1"),
    ("0*1 1 0!*2\t1!\n", "0 1 0! 0! 1!"),
    ("0*100", "0 0 0 0 0 0 0 0 0 0 0 0 0 0 0 0 0 0 0 0 0 0 0 0 0 0 0 0 0 0 0 0 0 0 0 0 0 0 0 0 0 0 0 0"),
];

// Whether runs under two texts end with the same output; `None` if there is no file.
fn is_same(alloc: Global, kind: Kind, counted: &str, listed: &str) -> Option<bool> {
    let (ending, sink) = printed(alloc, kind, &[7, 9], Some(kind), counted)?;
    let (wanted, lines) = printed(alloc, kind, &[7, 9], Some(kind), listed)?;
    let are_done = ending == Ok(Status::Done) && wanted == Ok(Status::Done);
    Some(are_done && sink.bytes() == lines.bytes())
}

#[test]
fn counts_are_the_choices_written_out(rt: HostRuntime) {
    for kind in Kind::ALL {
        for (counted, listed) in &WRITTEN_OUT {
            assert!(rt;
                is_same(rt.alloc(), kind, counted, listed) == Some(true),
                "{counted}"
            );
        }
    }
}

// Texts with a bad item after counts, and the fault.
const BAD_ITEMS: [(&str, CommandFault); 3] = [
    ("0*100 x", CommandFault::BadChoice(6)),
    ("1*16777216 0*16777217", CommandFault::BadChoice(11)),
    ("0*20 1*20 2", CommandFault::NoHart(10)),
];

// Whether this is the fault of a text, with nothing printed; `None` if there is no file.
fn is_told(alloc: Global, text: &str, fault: CommandFault) -> Option<bool> {
    let (ending, sink) = printed(alloc, Kind::Swap, &[7, 9], Some(Kind::Swap), text)?;
    Some(ending == Err(fault) && sink.bytes().is_empty())
}

#[test]
fn bad_item_after_counts_is_told_and_nothing_printed(rt: HostRuntime) {
    for (text, fault) in &BAD_ITEMS {
        assert!(rt; is_told(rt.alloc(), text, *fault) == Some(true), "{text}");
    }
}

// The objects, and the facts of their files.
#[rattlefmt::skip]
const FACTS: [(Kind, &str); 5] = [
    (Kind::Swap, "entry 00010000\nsegment 00010000 60 r-x\nsegment 00011000 12 rw-\nsymbols none\nlibrary swap\n"),
    (Kind::Add, "entry 00010000\nsegment 00010000 60 r-x\nsegment 00011000 12 rw-\nsymbols none\nlibrary add\n"),
    (Kind::LrSc, "entry 00010000\nsegment 00010000 64 r-x\nsegment 00011000 132 rw-\nsymbols none\nlibrary lrsc\n"),
    (Kind::AdoptCommit, "entry 00010000\nsegment 00010000 136 r-x\nsegment 00011000 512 rw-\nsymbols none\nlibrary adopt\n"),
    (Kind::Rounds, "entry 00010000\nsegment 00010000 160 r-x\nsegment 00011000 2048 rw-\nsymbols none\nlibrary rounds\n"),
];

// Whether an object's file has these facts; `None` if there is no file.
fn has_facts(alloc: Global, kind: Kind, text: &str) -> Option<bool> {
    let file = object_file(alloc, kind).ok()?;
    let mut program = MemorySource::new(&file);
    let mut sink = MemorySink::new(alloc);
    let answer = file_engine(alloc, FileView::Facts, &mut program);
    let ending = deliver(&mut sink, answer);
    Some(ending == Ok(Status::Done) && sink.bytes() == text.as_bytes())
}

#[test]
fn info_names_the_object(rt: HostRuntime) {
    for (kind, text) in &FACTS {
        assert!(rt; has_facts(rt.alloc(), *kind, text) == Some(true), "{text}");
    }
}
