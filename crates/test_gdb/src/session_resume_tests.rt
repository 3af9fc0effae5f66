//! Tests what no clause says: that the answers to `vCont` are those that the model of a session in
//! Python gives, with which GDB 13.1 was tried, where memory suffices. Where a thread has two
//! actions they are worked out by hand.
use crate::run::talk_at_six;
use gdb_replies::FixedReply;
use gdb_requests::{Action, Point, PointKind, ThreadAction, Threads};
use gdb_session::{Talk, answer_move};
use std::alloc::Global;

// Actions from a position, their answer, and the position that they leave.
struct Row {
    from: usize,
    actions: &'static [ThreadAction],
    answer: &'static str,
    position: usize,
}

// A breakpoint at the load.
const BREAK: Point = Point {
    kind: PointKind::Software,
    address: 0x1000c,
    length: 4,
};

// Actions in one session, with the breakpoint, for a GDB that knows `swbreak`.
#[rattlefmt::skip]
static ROWS: [Row; 16] = [
    Row { from: 6, position: 6,
        actions: &[
            ThreadAction { action: Action::Continue, threads: None },
        ],
        answer: "T0502:00000000;08:00100100;20:0c000100;thread:1;swbreak:;" },
    Row { from: 8, position: 18,
        actions: &[
            ThreadAction { action: Action::Continue, threads: None },
        ],
        answer: "T0c02:00000000;08:00100100;20:20000100;thread:2;" },
    Row { from: 0, position: 3,
        actions: &[
            ThreadAction { action: Action::Step, threads: Some(Threads::One(2)) },
            ThreadAction { action: Action::Continue, threads: None },
        ],
        answer: "T0502:00000000;08:00100100;20:04000100;thread:2;" },
    Row { from: 0, position: 1,
        actions: &[
            ThreadAction { action: Action::Step, threads: Some(Threads::One(1)) },
        ],
        answer: "T0502:00000000;08:00100100;20:04000100;thread:1;" },
    Row { from: 0, position: 7,
        actions: &[
            ThreadAction { action: Action::Continue, threads: Some(Threads::One(2)) },
        ],
        answer: "T0502:00000000;08:00100100;20:0c000100;thread:2;swbreak:;" },
    Row { from: 0, position: 4,
        actions: &[
            ThreadAction {
                action: Action::Range { from: 0x10000, to: 0x10008 },
                threads: Some(Threads::One(1)),
            },
            ThreadAction { action: Action::Continue, threads: None },
        ],
        answer: "T0502:00000000;08:00100100;20:08000100;thread:1;" },
    Row { from: 14, position: 15,
        actions: &[
            ThreadAction {
                action: Action::Range { from: 0x10000, to: 0x10020 },
                threads: Some(Threads::One(1)),
            },
        ],
        answer: "T0502:00000000;08:00100100;20:20000100;thread:1;" },
    Row { from: 2, position: 5,
        actions: &[
            ThreadAction { action: Action::Continue, threads: Some(Threads::One(1)) },
            ThreadAction { action: Action::Step, threads: Some(Threads::One(2)) },
            ThreadAction { action: Action::Continue, threads: None },
        ],
        answer: "T0502:00000000;08:00100100;20:08000100;thread:2;" },
    Row { from: 2, position: 4,
        actions: &[
            ThreadAction { action: Action::Step, threads: Some(Threads::One(1)) },
            ThreadAction { action: Action::Step, threads: Some(Threads::One(2)) },
            ThreadAction { action: Action::Continue, threads: None },
        ],
        answer: "T0502:00000000;08:00100100;20:08000100;thread:1;" },
    Row { from: 9, position: 12,
        actions: &[
            ThreadAction { action: Action::Step, threads: Some(Threads::One(1)) },
            ThreadAction { action: Action::Continue, threads: None },
        ],
        answer: "T0502:00000000;08:00100100;20:18000100;thread:1;" },
    Row { from: 9, position: 10,
        actions: &[
            ThreadAction { action: Action::Step, threads: Some(Threads::One(1)) },
        ],
        answer: "T0502:00000000;08:00100100;20:18000100;thread:1;" },
    Row { from: 18, position: 20,
        actions: &[
            ThreadAction { action: Action::Step, threads: Some(Threads::One(1)) },
        ],
        answer: "T0502:00000000;08:00100100;20:20000100;thread:1;replaylog:end;" },
    Row { from: 19, position: 20,
        actions: &[
            ThreadAction { action: Action::Continue, threads: None },
        ],
        answer: "T0502:00000000;08:00100100;20:20000100;thread:1;replaylog:end;" },
    Row { from: 0, position: 6,
        actions: &[
            ThreadAction { action: Action::Continue, threads: None },
            ThreadAction { action: Action::Step, threads: Some(Threads::One(2)) },
        ],
        answer: "T0502:00000000;08:00100100;20:0c000100;thread:1;swbreak:;" },
    Row { from: 0, position: 7,
        actions: &[
            ThreadAction { action: Action::Continue, threads: Some(Threads::One(2)) },
            ThreadAction { action: Action::Step, threads: Some(Threads::One(2)) },
        ],
        answer: "T0502:00000000;08:00100100;20:0c000100;thread:2;swbreak:;" },
    Row { from: 0, position: 0,
        actions: &[
            ThreadAction { action: Action::Step, threads: Some(Threads::One(3)) },
        ],
        answer: "E01" },
];

// The answer to actions; `E01` if they ask for no move.
fn answer(
    alloc: Global,
    talk: &mut Talk<Global>,
    actions: &[ThreadAction],
) -> Option<Vec<u8, Global>> {
    let mut out = Vec::new(alloc);
    match talk.resume_asked(actions) {
        Some(movement) => {
            answer_move(alloc, talk, movement, &mut out).ok()?;
        }
        None => out
            .extend_from_slice(FixedReply::BadOperand.text().as_bytes())
            .ok()?,
    }
    Some(out)
}

// Whether actions are answered as their row says.
fn is_answered(alloc: Global, talk: &mut Talk<Global>, row: &Row) -> Option<bool> {
    talk.debugger.goto(alloc, row.from).ok()?;
    talk.forget_alone();
    let out = answer(alloc, talk, row.actions)?;
    Some(&*out == row.answer.as_bytes() && talk.debugger.position() == row.position)
}

// The number of rows up to the first that isn't as it says.
fn count_answered(alloc: Global) -> Option<usize> {
    let mut talk = talk_at_six(alloc)?;
    talk.software_stops = true;
    talk.points.insert(BREAK).ok()?;
    for (number, row) in ROWS.iter().enumerate() {
        if !is_answered(alloc, &mut talk, row)? {
            return Some(number);
        }
    }
    Some(ROWS.len())
}

#[test]
fn actions_are_answered_as_the_model_answers(rt: HostRuntime) {
    assert!(rt; count_answered(rt.alloc()) == Some(ROWS.len()));
}
