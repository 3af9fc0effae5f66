//! Tests what no clause says: that answers in a session are those that the model of it in Python
//! gives, with which GDB 13.1 was tried, where memory suffices.
use crate::run::{FEATURES, talk_at_six};
use gdb_requests::{Plain, Point, PointKind, Threads};
use gdb_session::{Next, Selected, Talk, answer_plain};
use std::alloc::Global;

// A request and its answer.
struct Row {
    plain: Plain,
    answer: &'static str,
}

// A breakpoint at the load.
const BREAK: Point = Point {
    kind: PointKind::Software,
    address: 0x1000c,
    length: 4,
};

// The list of threads.
const LIST: &str = "l<threads><thread id=\"1\" name=\"hart 0\">running</thread>\
    <thread id=\"2\" name=\"hart 1\">running</thread></threads>";

// Requests of one session, behind the first six choices.
#[rattlefmt::skip]
static ROWS: [Row; 45] = [
    Row { plain: Plain::Reason, answer: "T05thread:1;" },
    Row { plain: Plain::Supported { software_stops: true }, answer: FEATURES },
    Row { plain: Plain::NoAcks, answer: "OK" },
    Row { plain: Plain::FirstThreads, answer: "m1,2" },
    Row { plain: Plain::MoreThreads, answer: "l" },
    Row { plain: Plain::CurrentThread, answer: "QC1" },
    Row { plain: Plain::Attached, answer: "1" },
    Row { plain: Plain::Symbols, answer: "OK" },
    Row { plain: Plain::IsThere(0), answer: "E01" },
    Row { plain: Plain::IsThere(2), answer: "OK" },
    Row { plain: Plain::IsThere(3), answer: "E01" },
    Row { plain: Plain::ThreadState(1), answer: "72756e6e696e67" },
    Row { plain: Plain::ThreadState(3), answer: "E01" },
    Row { plain: Plain::Register(8), answer: "00100100" },
    Row { plain: Plain::Register(10), answer: "00000000" },
    Row { plain: Plain::Register(32), answer: "0c000100" },
    Row { plain: Plain::Register(33), answer: "E01" },
    Row { plain: Plain::Memory { address: 0x11000, length: 4 }, answer: "00100100" },
    Row { plain: Plain::Memory { address: 0x11ffe, length: 4 }, answer: "0000" },
    Row { plain: Plain::Memory { address: 0x12000, length: 1 }, answer: "E14" },
    Row { plain: Plain::Memory { address: 0x12000, length: 0 }, answer: "" },
    Row { plain: Plain::Memory { address: 0xffff_ffff, length: 2 }, answer: "E14" },
    Row { plain: Plain::ReadThread(Threads::One(2)), answer: "OK" },
    Row { plain: Plain::CurrentThread, answer: "QC2" },
    Row { plain: Plain::Register(10), answer: "01000000" },
    Row { plain: Plain::ReadThread(Threads::One(3)), answer: "E01" },
    Row { plain: Plain::CurrentThread, answer: "QC2" },
    Row { plain: Plain::ReadThread(Threads::Any), answer: "OK" },
    Row { plain: Plain::CurrentThread, answer: "QC1" },
    Row { plain: Plain::MoveThreads(Threads::One(2)), answer: "OK" },
    Row { plain: Plain::MoveThreads(Threads::One(3)), answer: "E01" },
    Row { plain: Plain::CurrentThread, answer: "QC1" },
    Row { plain: Plain::Insert(BREAK), answer: "OK" },
    Row { plain: Plain::Insert(BREAK), answer: "OK" },
    Row { plain: Plain::Remove(BREAK), answer: "OK" },
    Row { plain: Plain::Remove(BREAK), answer: "OK" },
    Row { plain: Plain::ThreadList { from: 0, length: 9 }, answer: "m<threads>" },
    Row { plain: Plain::ThreadList { from: 0, length: 0x1000 }, answer: LIST },
    Row { plain: Plain::ThreadList { from: 0x1000, length: 1 }, answer: "E01" },
    Row { plain: Plain::Target { from: 0, length: 5 }, answer: "m<?xml" },
    Row { plain: Plain::Actions, answer: "vCont;c;C;s;S;r" },
    Row { plain: Plain::Write, answer: "E30" },
    Row { plain: Plain::BackStep, answer: "" },
    Row { plain: Plain::Detach, answer: "OK" },
    Row { plain: Plain::Kill, answer: "" },
];

// What comes after requests.
static NEXT: [(Plain, Next); 5] = [
    (Plain::Symbols, Next::Answered),
    (Plain::Continue, Next::Move),
    (Plain::BackStep, Next::Move),
    (Plain::Detach, Next::Detached),
    (Plain::Kill, Next::Killed),
];

// Whether a request is answered as its row says.
fn is_answered(alloc: Global, talk: &mut Talk<Global>, row: &Row) -> Option<bool> {
    let mut out = Vec::new(alloc);
    answer_plain(alloc, talk, row.plain, &mut out).ok()?;
    Some(&*out == row.answer.as_bytes())
}

// The number of rows up to the first that isn't as it says.
fn count_answered(alloc: Global, talk: &mut Talk<Global>) -> Option<usize> {
    for (number, row) in ROWS.iter().enumerate() {
        if !is_answered(alloc, talk, row)? {
            return Some(number);
        }
    }
    Some(ROWS.len())
}

// Whether the session is left as the rows say.
fn is_left(talk: &Talk<Global>) -> bool {
    !talk.acknowledges
        && talk.software_stops
        && talk.reads == Selected::Any
        && talk.moves == Selected::One(1)
        && talk.debugger.position() == 6
}

// Whether all rows are answered, and the session is left as they say.
fn is_as_the_model(alloc: Global) -> Option<bool> {
    let mut talk = talk_at_six(alloc)?;
    Some(count_answered(alloc, &mut talk)? == ROWS.len() && is_left(&talk))
}

#[test]
fn answers_are_those_of_the_model(rt: HostRuntime) {
    assert!(rt; is_as_the_model(rt.alloc()) == Some(true));
}

// The number of requests up to the first after which something else comes.
fn count_next(alloc: Global) -> Option<usize> {
    let mut talk = talk_at_six(alloc)?;
    let mut out = Vec::new(alloc);
    for (number, (plain, next)) in NEXT.iter().enumerate() {
        if answer_plain(alloc, &mut talk, *plain, &mut out).ok()? != *next {
            return Some(number);
        }
    }
    Some(NEXT.len())
}

#[test]
fn moves_and_ends_are_told_apart(rt: HostRuntime) {
    assert!(rt; count_next(rt.alloc()) == Some(NEXT.len()));
}
