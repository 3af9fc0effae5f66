//! Tests what no clause says: that the answers to moves of a session are those that the model of
//! it in Python gives, with which GDB 13.1 was tried, where memory suffices.
use crate::run::{FEATURES, talk_at_six};
use gdb_requests::{Plain, Point, PointKind, Threads};
use gdb_session::{Talk, answer_move, answer_plain};
use std::alloc::Global;

// A request, its answer, and the position that it leaves.
struct Row {
    plain: Plain,
    answer: &'static str,
    position: usize,
}

// A breakpoint of each kind at the load.
const BREAK: Point = Point {
    kind: PointKind::Software,
    address: 0x1000c,
    length: 4,
};

const HARDWARE: Point = Point {
    kind: PointKind::Hardware,
    address: 0x1000c,
    length: 4,
};

// Changes of the word.
const CHANGE: Point = Point {
    kind: PointKind::Write,
    address: 0x11000,
    length: 4,
};

// Requests of one session, behind the first six choices.
#[rattlefmt::skip]
static ROWS: [Row; 45] = [
    Row { plain: Plain::Continue, position: 18,
        answer: "T0c02:00000000;08:00100100;20:20000100;thread:2;" },
    Row { plain: Plain::Reason, position: 18,
        answer: "T0c02:00000000;08:00100100;20:20000100;thread:2;" },
    Row { plain: Plain::CurrentThread, answer: "QC2", position: 18 },
    Row { plain: Plain::Step, position: 20,
        answer: "T0502:00000000;08:00100100;20:20000100;thread:2;replaylog:end;" },
    Row { plain: Plain::Reason, position: 20,
        answer: "T0502:00000000;08:00100100;20:20000100;thread:2;replaylog:end;" },
    Row { plain: Plain::BackStep, position: 17,
        answer: "T0502:00000000;08:00100100;20:20000100;thread:2;" },
    Row { plain: Plain::BackContinue, position: 0,
        answer: "T0502:00000000;08:00000000;20:00000100;thread:2;replaylog:begin;" },
    Row { plain: Plain::Reason, position: 0,
        answer: "T0502:00000000;08:00000000;20:00000100;thread:2;replaylog:begin;" },
    Row { plain: Plain::BackContinue, position: 0,
        answer: "T0502:00000000;08:00000000;20:00000100;thread:2;replaylog:begin;" },
    Row { plain: Plain::Insert(BREAK), answer: "OK", position: 0 },
    Row { plain: Plain::Continue, position: 6,
        answer: "T0502:00000000;08:00100100;20:0c000100;thread:1;" },
    Row { plain: Plain::Reason, position: 6,
        answer: "T0502:00000000;08:00100100;20:0c000100;thread:1;" },
    Row { plain: Plain::BackContinue, position: 0,
        answer: "T0502:00000000;08:00000000;20:00000100;thread:1;replaylog:begin;" },
    Row { plain: Plain::Step, position: 2,
        answer: "T0502:00000000;08:00100100;20:04000100;thread:1;" },
    Row { plain: Plain::Supported { software_stops: true }, answer: FEATURES, position: 2 },
    Row { plain: Plain::BackContinue, position: 0,
        answer: "T0502:00000000;08:00000000;20:00000100;thread:1;replaylog:begin;" },
    Row { plain: Plain::Continue, position: 6,
        answer: "T0502:00000000;08:00100100;20:0c000100;thread:1;swbreak:;" },
    Row { plain: Plain::Insert(HARDWARE), answer: "OK", position: 6 },
    Row { plain: Plain::Continue, position: 6,
        answer: "T0502:00000000;08:00100100;20:0c000100;thread:1;swbreak:;" },
    Row { plain: Plain::BackContinue, position: 0,
        answer: "T0502:00000000;08:00000000;20:00000100;thread:1;replaylog:begin;" },
    Row { plain: Plain::Remove(BREAK), answer: "OK", position: 0 },
    Row { plain: Plain::Continue, position: 6,
        answer: "T0502:00000000;08:00100100;20:0c000100;thread:1;hwbreak:;" },
    Row { plain: Plain::Remove(HARDWARE), answer: "OK", position: 6 },
    Row { plain: Plain::Insert(CHANGE), answer: "OK", position: 6 },
    Row { plain: Plain::Continue, position: 8,
        answer: "T0502:00000000;08:00100100;20:10000100;thread:1;watch:11001;" },
    Row { plain: Plain::BackContinue, position: 5,
        answer: "T0502:00000000;08:00100100;20:0c000100;thread:1;watch:11000;" },
    Row { plain: Plain::Register(32), answer: "0c000100", position: 5 },
    Row { plain: Plain::Remove(CHANGE), answer: "OK", position: 5 },
    Row { plain: Plain::MoveThreads(Threads::One(2)), answer: "OK", position: 5 },
    Row { plain: Plain::Step, position: 7,
        answer: "T0502:00000000;08:00100100;20:0c000100;thread:2;" },
    Row { plain: Plain::BackStep, position: 5,
        answer: "T0502:00000000;08:00100100;20:08000100;thread:2;" },
    Row { plain: Plain::BackContinue, position: 0,
        answer: "T0502:00000000;08:00000000;20:00000100;thread:2;replaylog:begin;" },
    Row { plain: Plain::Continue, position: 18,
        answer: "T0c02:00000000;08:00100100;20:20000100;thread:2;" },
    Row { plain: Plain::BackContinue, position: 0,
        answer: "T0502:00000000;08:00000000;20:00000100;thread:2;replaylog:begin;" },
    Row { plain: Plain::MoveThreads(Threads::Any), answer: "OK", position: 0 },
    Row { plain: Plain::ReadThread(Threads::One(1)), answer: "OK", position: 0 },
    Row { plain: Plain::Step, position: 2,
        answer: "T0502:00000000;08:00100100;20:04000100;thread:1;" },
    Row { plain: Plain::BackStep, position: 0,
        answer: "T0502:00000000;08:00000000;20:00000100;thread:1;" },
    Row { plain: Plain::ReadThread(Threads::One(2)), answer: "OK", position: 0 },
    Row { plain: Plain::Step, position: 3,
        answer: "T0502:00000000;08:00100100;20:04000100;thread:2;" },
    Row { plain: Plain::CurrentThread, answer: "QC2", position: 3 },
    Row { plain: Plain::Continue, position: 18,
        answer: "T0c02:00000000;08:00100100;20:20000100;thread:2;" },
    Row { plain: Plain::Continue, position: 20,
        answer: "T0502:00000000;08:00100100;20:20000100;thread:2;replaylog:end;" },
    Row { plain: Plain::Continue, position: 20,
        answer: "T0502:00000000;08:00100100;20:20000100;thread:2;replaylog:end;" },
    Row { plain: Plain::BackContinue, position: 0,
        answer: "T0502:00000000;08:00000000;20:00000100;thread:2;replaylog:begin;" },
];

// Whether a request is answered as its row says.
fn is_answered(alloc: Global, talk: &mut Talk<Global>, row: &Row) -> Option<bool> {
    let mut out = Vec::new(alloc);
    match talk.move_asked(row.plain) {
        Some(movement) => {
            answer_move(alloc, talk, movement, &mut out).ok()?;
        }
        None => {
            answer_plain(alloc, talk, row.plain, &mut out).ok()?;
        }
    }
    Some(&*out == row.answer.as_bytes() && talk.debugger.position() == row.position)
}

// The number of rows up to the first that isn't as it says.
fn count_answered(alloc: Global) -> Option<usize> {
    let mut talk = talk_at_six(alloc)?;
    for (number, row) in ROWS.iter().enumerate() {
        if !is_answered(alloc, &mut talk, row)? {
            return Some(number);
        }
    }
    Some(ROWS.len())
}

#[test]
fn moves_are_answered_as_the_model_answers(rt: HostRuntime) {
    assert!(rt; count_answered(rt.alloc()) == Some(ROWS.len()));
}
