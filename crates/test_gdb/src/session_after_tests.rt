//! Tests what no clause says: that the answers to moves of a session with steps of a thread alone
//! between are those that the model of it in Python gives, with which GDB 13.1 was tried, where
//! memory suffices.
use crate::run::begin;
use gdb_requests::{Action, Plain, Point, PointKind, ThreadAction, Threads};
use gdb_session::{Move, Talk, answer_move, answer_plain};
use std::alloc::Global;

// What is asked.
enum Ask {
    Plain(Plain),
    Actions(&'static [ThreadAction]),
    // A move to a position by a command of the user's, which has no answer here.
    Goto(usize),
}

// What is asked, its answer, and the position that it leaves.
struct Row {
    ask: Ask,
    answer: &'static str,
    position: usize,
}

// A breakpoint at the load.
const BREAK: Point = Point {
    kind: PointKind::Software,
    address: 0x1000c,
    length: 4,
};

// Changes of the word.
const CHANGE: Point = Point {
    kind: PointKind::Write,
    address: 0x11000,
    length: 4,
};

// Goes on, all or one thread.
const ON: Action = Action::Continue;

const GO: [ThreadAction; 1] = [ThreadAction {
    action: ON,
    threads: None,
}];

const GO_2: [ThreadAction; 1] = [ThreadAction {
    action: ON,
    threads: Some(Threads::One(2)),
}];

// A step of a thread alone.
const STEP_1: [ThreadAction; 1] = [ThreadAction {
    action: Action::Step,
    threads: Some(Threads::One(1)),
}];

const STEP_2: [ThreadAction; 1] = [ThreadAction {
    action: Action::Step,
    threads: Some(Threads::One(2)),
}];

// A step of a thread where all move.
const STEP_2_ALL: [ThreadAction; 2] = [
    ThreadAction {
        action: Action::Step,
        threads: Some(Threads::One(2)),
    },
    ThreadAction {
        action: ON,
        threads: None,
    },
];

// A step of a thread alone that leaves a range.
const RANGE_1: [ThreadAction; 1] = [ThreadAction {
    action: Action::Range {
        from: 0x10000,
        to: 0x10010,
    },
    threads: Some(Threads::One(1)),
}];

const LONG_2: [ThreadAction; 1] = [ThreadAction {
    action: Action::Range {
        from: 0x10000,
        to: 0x10018,
    },
    threads: Some(Threads::One(2)),
}];

// A step of any thread.
const ANY: [ThreadAction; 1] = [ThreadAction {
    action: Action::Step,
    threads: None,
}];

const ANY_ALL: [ThreadAction; 1] = [ThreadAction {
    action: Action::Step,
    threads: Some(Threads::All),
}];

const ANY_RANGE: [ThreadAction; 1] = [ThreadAction {
    action: Action::Range {
        from: 0x10000,
        to: 0x10020,
    },
    threads: None,
}];

// What is asked in one session from the start, by a GDB that knows `swbreak`.
#[rattlefmt::skip]
static ROWS: [Row; 72] = [
    Row { ask: Ask::Plain(Plain::MoveThreads(Threads::One(1))), position: 0, answer: "OK" },
    Row { ask: Ask::Plain(Plain::Insert(CHANGE)), position: 0, answer: "OK" },
    Row { ask: Ask::Plain(Plain::Insert(BREAK)), position: 0, answer: "OK" },
    Row { ask: Ask::Goto(20), position: 20, answer: "" },
    Row { ask: Ask::Plain(Plain::BackStep), position: 16,
        answer: "T0502:00000000;08:00100100;20:20000100;thread:1;" },
    Row { ask: Ask::Actions(&STEP_2_ALL), position: 18,
        answer: "T0c02:00000000;08:00100100;20:20000100;thread:2;" },
    Row { ask: Ask::Actions(&STEP_2), position: 20,
        answer: "T0502:00000000;08:00100100;20:20000100;thread:2;replaylog:end;" },
    Row { ask: Ask::Plain(Plain::BackContinue), position: 10,
        answer: "T0502:00000000;08:00100100;20:18000100;thread:1;watch:11000;" },
    Row { ask: Ask::Actions(&STEP_2), position: 11,
        answer: "T0502:00000000;08:00100100;20:14000100;thread:2;" },
    Row { ask: Ask::Actions(&STEP_1), position: 13,
        answer: "T0502:00000000;08:00100100;20:1c000100;thread:1;" },
    Row { ask: Ask::Actions(&STEP_1), position: 15,
        answer: "T0502:00000000;08:00100100;20:20000100;thread:1;" },
    Row { ask: Ask::Actions(&STEP_2_ALL), position: 11,
        answer: "T0502:00000000;08:00100100;20:14000100;thread:2;watch:11000;" },
    Row { ask: Ask::Actions(&STEP_1), position: 13,
        answer: "T0502:00000000;08:00100100;20:1c000100;thread:1;" },
    Row { ask: Ask::Actions(&RANGE_1), position: 15,
        answer: "T0502:00000000;08:00100100;20:20000100;thread:1;" },
    Row { ask: Ask::Actions(&GO), position: 18,
        answer: "T0c02:00000000;08:00100100;20:20000100;thread:2;" },
    Row { ask: Ask::Actions(&ANY), position: 20,
        answer: "T0502:00000000;08:00100100;20:20000100;thread:2;replaylog:end;" },
    Row { ask: Ask::Plain(Plain::MoveThreads(Threads::One(1))), position: 20, answer: "OK" },
    Row { ask: Ask::Plain(Plain::BackStep), position: 16,
        answer: "T0502:00000000;08:00100100;20:20000100;thread:1;" },
    Row { ask: Ask::Plain(Plain::BackContinue), position: 10,
        answer: "T0502:00000000;08:00100100;20:18000100;thread:1;watch:11000;" },
    Row { ask: Ask::Plain(Plain::MoveThreads(Threads::Any)), position: 10, answer: "OK" },
    Row { ask: Ask::Plain(Plain::BackContinue), position: 10,
        answer: "T0502:00000000;08:00100100;20:18000100;thread:1;watch:11000;" },
    Row { ask: Ask::Plain(Plain::Remove(BREAK)), position: 10, answer: "OK" },
    Row { ask: Ask::Actions(&STEP_1), position: 13,
        answer: "T0502:00000000;08:00100100;20:1c000100;thread:1;" },
    Row { ask: Ask::Plain(Plain::Insert(BREAK)), position: 13, answer: "OK" },
    Row { ask: Ask::Actions(&ANY), position: 11,
        answer: "T0502:00000000;08:00100100;20:14000100;thread:2;" },
    Row { ask: Ask::Plain(Plain::Remove(CHANGE)), position: 11, answer: "OK" },
    Row { ask: Ask::Plain(Plain::MoveThreads(Threads::Any)), position: 11, answer: "OK" },
    Row { ask: Ask::Plain(Plain::Remove(BREAK)), position: 11, answer: "OK" },
    Row { ask: Ask::Plain(Plain::Remove(CHANGE)), position: 11, answer: "OK" },
    Row { ask: Ask::Goto(8), position: 8, answer: "" },
    Row { ask: Ask::Actions(&STEP_2), position: 11,
        answer: "T0502:00000000;08:00100100;20:14000100;thread:2;" },
    Row { ask: Ask::Plain(Plain::MoveThreads(Threads::One(2))), position: 11, answer: "OK" },
    Row { ask: Ask::Plain(Plain::BackStep), position: 10,
        answer: "T0502:00000000;08:00100100;20:10000100;thread:2;" },
    Row { ask: Ask::Plain(Plain::MoveThreads(Threads::Any)), position: 10, answer: "OK" },
    Row { ask: Ask::Plain(Plain::Insert(CHANGE)), position: 10, answer: "OK" },
    Row { ask: Ask::Plain(Plain::BackContinue), position: 10,
        answer: "T0502:00000000;08:00100100;20:18000100;thread:1;watch:11000;" },
    Row { ask: Ask::Goto(8), position: 8, answer: "" },
    Row { ask: Ask::Actions(&STEP_1), position: 8,
        answer: "T0502:00000000;08:00100100;20:10000100;thread:1;watch:11001;" },
    Row { ask: Ask::Goto(9), position: 9, answer: "" },
    Row { ask: Ask::Actions(&GO), position: 9,
        answer: "T0502:00000000;08:00100100;20:14000100;thread:1;watch:11000;" },
    Row { ask: Ask::Plain(Plain::Remove(CHANGE)), position: 9, answer: "OK" },
    Row { ask: Ask::Goto(1), position: 1, answer: "" },
    Row { ask: Ask::Actions(&STEP_1), position: 3,
        answer: "T0502:00000000;08:00100100;20:08000100;thread:1;" },
    Row { ask: Ask::Actions(&STEP_1), position: 5,
        answer: "T0502:00000000;08:00100100;20:0c000100;thread:1;" },
    Row { ask: Ask::Plain(Plain::Insert(BREAK)), position: 5, answer: "OK" },
    Row { ask: Ask::Actions(&ANY), position: 2,
        answer: "T0502:00000000;08:00100100;20:04000100;thread:2;" },
    Row { ask: Ask::Goto(1), position: 1, answer: "" },
    Row { ask: Ask::Plain(Plain::Remove(BREAK)), position: 1, answer: "OK" },
    Row { ask: Ask::Actions(&STEP_1), position: 3,
        answer: "T0502:00000000;08:00100100;20:08000100;thread:1;" },
    Row { ask: Ask::Actions(&STEP_1), position: 5,
        answer: "T0502:00000000;08:00100100;20:0c000100;thread:1;" },
    Row { ask: Ask::Plain(Plain::Insert(BREAK)), position: 5, answer: "OK" },
    Row { ask: Ask::Actions(&ANY_ALL), position: 2,
        answer: "T0502:00000000;08:00100100;20:04000100;thread:2;" },
    Row { ask: Ask::Actions(&ANY_RANGE), position: 6,
        answer: "T0502:00000000;08:00100100;20:0c000100;thread:1;swbreak:;" },
    Row { ask: Ask::Plain(Plain::Remove(BREAK)), position: 6, answer: "OK" },
    Row { ask: Ask::Goto(8), position: 8, answer: "" },
    Row { ask: Ask::Actions(&GO_2), position: 18,
        answer: "T0c02:00000000;08:00100100;20:20000100;thread:2;" },
    Row { ask: Ask::Plain(Plain::Insert(CHANGE)), position: 18, answer: "OK" },
    Row { ask: Ask::Actions(&GO), position: 8,
        answer: "T0502:00000000;08:00100100;20:10000100;thread:1;watch:11001;" },
    Row { ask: Ask::Plain(Plain::Remove(CHANGE)), position: 8, answer: "OK" },
    Row { ask: Ask::Goto(8), position: 8, answer: "" },
    Row { ask: Ask::Actions(&LONG_2), position: 12,
        answer: "T0502:00000000;08:00100100;20:18000100;thread:2;" },
    Row { ask: Ask::Plain(Plain::Insert(CHANGE)), position: 12, answer: "OK" },
    Row { ask: Ask::Actions(&GO), position: 18,
        answer: "T0c02:00000000;08:00100100;20:20000100;thread:2;" },
    Row { ask: Ask::Actions(&STEP_2_ALL), position: 20,
        answer: "T0502:00000000;08:00100100;20:20000100;thread:2;replaylog:end;" },
    Row { ask: Ask::Plain(Plain::Remove(CHANGE)), position: 20, answer: "OK" },
    Row { ask: Ask::Goto(12), position: 12, answer: "" },
    Row { ask: Ask::Plain(Plain::MoveThreads(Threads::One(1))), position: 12, answer: "OK" },
    Row { ask: Ask::Plain(Plain::BackStep), position: 9,
        answer: "T0502:00000000;08:00100100;20:14000100;thread:1;" },
    Row { ask: Ask::Plain(Plain::MoveThreads(Threads::Any)), position: 9, answer: "OK" },
    Row { ask: Ask::Plain(Plain::Insert(CHANGE)), position: 9, answer: "OK" },
    Row { ask: Ask::Plain(Plain::BackStep), position: 12,
        answer: "T0502:00000000;08:00100100;20:18000100;thread:2;watch:11000;" },
    Row { ask: Ask::Plain(Plain::BackContinue), position: 12,
        answer: "T0502:00000000;08:00100100;20:18000100;thread:2;watch:11000;" },
];

// The move that is asked for, if it is one.
fn move_of(talk: &Talk<Global>, ask: &Ask) -> Option<Move> {
    match ask {
        Ask::Plain(plain) => talk.move_asked(*plain),
        Ask::Actions(actions) => talk.resume_asked(actions),
        Ask::Goto(_) => None,
    }
}

// The answer.
fn answer(alloc: Global, talk: &mut Talk<Global>, ask: &Ask) -> Option<Vec<u8, Global>> {
    let mut out = Vec::new(alloc);
    if let Some(movement) = move_of(talk, ask) {
        answer_move(alloc, talk, movement, &mut out).ok()?;
        return Some(out);
    }
    match ask {
        Ask::Plain(plain) => {
            answer_plain(alloc, talk, *plain, &mut out).ok()?;
        }
        Ask::Actions(_) => return None,
        Ask::Goto(position) => {
            talk.debugger.goto(alloc, *position).ok()?;
            talk.forget_alone();
        }
    }
    Some(out)
}

// Whether a row is answered as it says.
fn is_answered(alloc: Global, talk: &mut Talk<Global>, row: &Row) -> Option<bool> {
    let out = answer(alloc, talk, &row.ask)?;
    Some(&*out == row.answer.as_bytes() && talk.debugger.position() == row.position)
}

// The number of rows up to the first that isn't as it says.
fn count_answered(alloc: Global) -> Option<usize> {
    let mut talk = Talk::new(alloc, begin(alloc)?);
    talk.software_stops = true;
    for (number, row) in ROWS.iter().enumerate() {
        if !is_answered(alloc, &mut talk, row)? {
            return Some(number);
        }
    }
    Some(ROWS.len())
}

#[test]
fn moves_after_steps_alone_are_answered_as_the_model_answers(rt: HostRuntime) {
    assert!(rt; count_answered(rt.alloc()) == Some(ROWS.len()));
}
