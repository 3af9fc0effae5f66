//! Tests what no clause says: moves through a run of two harts, as a model of them in Python moves
//! against which GDB 13.1 was held.
use crate::run::begin;
use debug_session::Debugger;
use gdb_moves::{
    AddressRange, Points, StopReason, ThreadStop, Whose, backward, forward, step, step_alone,
    step_back,
};
use gdb_requests::{Point, PointKind};
use hart_step::Cause;
use std::alloc::{AllocError, Global};

/// No points.
#[rattlefmt::skip]
pub const NOTHING: [Point; 0] = [];

/// A breakpoint at the load.
#[rattlefmt::skip]
pub const BREAK: [Point; 1] = [Point { kind: PointKind::Software, address: 0x1000c, length: 4 }];

/// Two breakpoints at the load, of both kinds, and one further on.
#[rattlefmt::skip]
pub const BREAKS: [Point; 3] = [
    Point { kind: PointKind::Hardware, address: 0x1000c, length: 4 },
    Point { kind: PointKind::Software, address: 0x1000c, length: 4 },
    Point { kind: PointKind::Hardware, address: 0x10018, length: 4 },
];

/// Changes of the word.
#[rattlefmt::skip]
pub const CHANGE: [Point; 1] = [Point { kind: PointKind::Write, address: 0x11000, length: 4 }];

/// Changes of a byte that is stored, and never changes.
#[rattlefmt::skip]
pub const HIGH_CHANGE: [Point; 1] = [Point { kind: PointKind::Write, address: 0x11003, length: 4 }];

// Changes of the byte that is stored by itself.
#[rattlefmt::skip]
const LOW_CHANGE: [Point; 1] = [Point { kind: PointKind::Write, address: 0x11001, length: 1 }];

/// Reads of the word's upper half, and of what follows it.
#[rattlefmt::skip]
pub const READ: [Point; 1] = [Point { kind: PointKind::Read, address: 0x11002, length: 8 }];

/// Accesses to the word's lower half, and to what comes before it.
#[rattlefmt::skip]
pub const ACCESS: [Point; 1] = [Point { kind: PointKind::Access, address: 0x10ffe, length: 4 }];

// Two watches, both of which are hit; the first one counts.
#[rattlefmt::skip]
const FIRST: [Point; 2] = [
    Point { kind: PointKind::Access, address: 0x11001, length: 2 },
    Point { kind: PointKind::Write, address: 0x11000, length: 4 },
];

/// A breakpoint at the store-conditional, and changes of a byte that it changes.
#[rattlefmt::skip]
pub const BOTH: [Point; 2] = [
    Point { kind: PointKind::Software, address: 0x10008, length: 4 },
    Point { kind: PointKind::Write, address: 0x11000, length: 1 },
];

// All harts.
const ALL: Whose = Whose::All;

// A move.
#[derive(Clone, Copy)]
enum Call {
    Forward(Whose),
    Backward(Whose),
    StepBack(Whose, u32),
    Step(u32, AddressRange),
    StepAlone(u32, AddressRange),
}

// A move from a position, with points; the hart of the stop and its reason, and the position of the
// stop.
struct Row {
    points: &'static [Point],
    from: usize,
    call: Call,
    stop: Option<(u32, StopReason)>,
    to: usize,
}

// The range of a single step.
const ONE: AddressRange = AddressRange { from: 0, to: 0 };

// The ranges from the first instruction to before the load, the store and the call.
const TO_LOAD: AddressRange = AddressRange {
    from: 0x10000,
    to: 0x1000c,
};

const TO_STORE: AddressRange = AddressRange {
    from: 0x10000,
    to: 0x10010,
};

const TO_CALL: AddressRange = AddressRange {
    from: 0x10000,
    to: 0x10020,
};

#[rattlefmt::skip]
static ROWS: [Row; 65] = [
    Row { points: &NOTHING, from: 0, call: Call::Forward(ALL),
        stop: Some((1, StopReason::Fault(Cause::BadCall))), to: 18 },
    Row { points: &NOTHING, from: 20, call: Call::Forward(ALL), stop: None, to: 20 },
    Row { points: &NOTHING, from: 20, call: Call::Backward(ALL), stop: None, to: 0 },
    Row { points: &BREAK, from: 0, call: Call::Forward(ALL),
        stop: Some((0, StopReason::Software)), to: 6 },
    Row { points: &BREAK, from: 6, call: Call::Forward(ALL),
        stop: Some((0, StopReason::Software)), to: 6 },
    Row { points: &BREAK, from: 7, call: Call::Forward(ALL),
        stop: Some((1, StopReason::Software)), to: 7 },
    Row { points: &BREAK, from: 8, call: Call::Forward(ALL),
        stop: Some((1, StopReason::Fault(Cause::BadCall))), to: 18 },
    Row { points: &BREAK, from: 0, call: Call::Forward(Whose::One(1)),
        stop: Some((1, StopReason::Software)), to: 7 },
    Row { points: &BREAK, from: 20, call: Call::Backward(ALL),
        stop: Some((1, StopReason::Software)), to: 7 },
    Row { points: &BREAK, from: 7, call: Call::Backward(ALL),
        stop: Some((0, StopReason::Software)), to: 6 },
    Row { points: &BREAK, from: 6, call: Call::Backward(ALL), stop: None, to: 0 },
    Row { points: &BREAK, from: 20, call: Call::Backward(Whose::One(0)),
        stop: Some((0, StopReason::Software)), to: 6 },
    Row { points: &BREAKS, from: 0, call: Call::Forward(ALL),
        stop: Some((0, StopReason::Software)), to: 6 },
    Row { points: &BREAKS, from: 8, call: Call::Forward(ALL),
        stop: Some((0, StopReason::Hardware)), to: 12 },
    Row { points: &BREAKS, from: 20, call: Call::Backward(ALL),
        stop: Some((1, StopReason::Hardware)), to: 13 },
    Row { points: &CHANGE, from: 0, call: Call::Forward(ALL),
        stop: Some((0, StopReason::Change { address: 0x11000 })), to: 4 },
    Row { points: &CHANGE, from: 5, call: Call::Forward(ALL),
        stop: Some((0, StopReason::Change { address: 0x11001 })), to: 8 },
    Row { points: &CHANGE, from: 9, call: Call::Forward(ALL),
        stop: Some((0, StopReason::Change { address: 0x11000 })), to: 9 },
    Row { points: &CHANGE, from: 0, call: Call::Forward(Whose::One(1)),
        stop: Some((1, StopReason::Change { address: 0x11000 })), to: 11 },
    Row { points: &CHANGE, from: 20, call: Call::Backward(ALL),
        stop: Some((1, StopReason::Change { address: 0x11000 })), to: 12 },
    Row { points: &CHANGE, from: 12, call: Call::Backward(ALL),
        stop: Some((1, StopReason::Change { address: 0x11000 })), to: 12 },
    Row { points: &CHANGE, from: 11, call: Call::Backward(ALL),
        stop: Some((0, StopReason::Change { address: 0x11000 })), to: 10 },
    Row { points: &HIGH_CHANGE, from: 0, call: Call::Forward(ALL),
        stop: Some((1, StopReason::Fault(Cause::BadCall))), to: 18 },
    Row { points: &LOW_CHANGE, from: 5, call: Call::Forward(ALL),
        stop: Some((0, StopReason::Change { address: 0x11001 })), to: 8 },
    Row { points: &LOW_CHANGE, from: 20, call: Call::Backward(ALL),
        stop: Some((0, StopReason::Change { address: 0x11001 })), to: 9 },
    Row { points: &READ, from: 0, call: Call::Forward(ALL),
        stop: Some((0, StopReason::Read { address: 0x11002 })), to: 2 },
    Row { points: &READ, from: 4, call: Call::Forward(ALL),
        stop: Some((0, StopReason::Read { address: 0x11002 })), to: 6 },
    Row { points: &READ, from: 4, call: Call::Backward(ALL),
        stop: Some((1, StopReason::Read { address: 0x11002 })), to: 4 },
    Row { points: &READ, from: 8, call: Call::Forward(ALL),
        stop: Some((0, StopReason::Read { address: 0x11002 })), to: 9 },
    Row { points: &ACCESS, from: 5, call: Call::Forward(ALL),
        stop: Some((0, StopReason::Access { address: 0x11000 })), to: 6 },
    Row { points: &ACCESS, from: 10, call: Call::Forward(ALL),
        stop: Some((1, StopReason::Access { address: 0x11001 })), to: 10 },
    Row { points: &ACCESS, from: 6, call: Call::Backward(ALL),
        stop: Some((0, StopReason::Access { address: 0x11000 })), to: 5 },
    Row { points: &ACCESS, from: 6, call: Call::Backward(Whose::One(1)),
        stop: Some((1, StopReason::Access { address: 0x11000 })), to: 4 },
    Row { points: &FIRST, from: 0, call: Call::Forward(ALL),
        stop: Some((0, StopReason::Access { address: 0x11001 })), to: 2 },
    Row { points: &FIRST, from: 20, call: Call::Backward(ALL),
        stop: Some((1, StopReason::Access { address: 0x11001 })), to: 12 },
    Row { points: &BOTH, from: 0, call: Call::Forward(ALL),
        stop: Some((0, StopReason::Software)), to: 4 },
    Row { points: &BOTH, from: 5, call: Call::Backward(ALL),
        stop: Some((0, StopReason::Software)), to: 4 },
    Row { points: &BOTH, from: 4, call: Call::Backward(ALL), stop: None, to: 0 },
    Row { points: &BOTH, from: 10, call: Call::Backward(Whose::One(1)),
        stop: Some((1, StopReason::Software)), to: 5 },
    Row { points: &NOTHING, from: 17, call: Call::StepBack(ALL, 1),
        stop: Some((1, StopReason::Ready)), to: 15 },
    Row { points: &NOTHING, from: 18, call: Call::StepBack(ALL, 0),
        stop: Some((0, StopReason::Ready)), to: 16 },
    Row { points: &NOTHING, from: 0, call: Call::StepBack(ALL, 0), stop: None, to: 0 },
    Row { points: &NOTHING, from: 20, call: Call::StepBack(ALL, 0),
        stop: Some((0, StopReason::Ready)), to: 16 },
    Row { points: &BREAK, from: 9, call: Call::StepBack(ALL, 0),
        stop: Some((0, StopReason::Ready)), to: 8 },
    Row { points: &BREAK, from: 7, call: Call::StepBack(ALL, 1),
        stop: Some((0, StopReason::Software)), to: 6 },
    Row { points: &CHANGE, from: 10, call: Call::StepBack(ALL, 1),
        stop: Some((0, StopReason::Change { address: 0x11000 })), to: 10 },
    Row { points: &CHANGE, from: 10, call: Call::StepBack(Whose::One(1), 1),
        stop: Some((1, StopReason::Ready)), to: 7 },
    Row { points: &NOTHING, from: 0, call: Call::Step(0, ONE),
        stop: Some((0, StopReason::Ready)), to: 2 },
    Row { points: &NOTHING, from: 1, call: Call::Step(0, ONE),
        stop: Some((0, StopReason::Ready)), to: 4 },
    Row { points: &NOTHING, from: 8, call: Call::Step(0, ONE),
        stop: Some((0, StopReason::Ready)), to: 9 },
    Row { points: &NOTHING, from: 9, call: Call::Step(0, ONE),
        stop: Some((0, StopReason::Ready)), to: 12 },
    Row { points: &NOTHING, from: 16, call: Call::Step(0, ONE),
        stop: Some((0, StopReason::Done)), to: 17 },
    Row { points: &NOTHING, from: 17, call: Call::Step(1, ONE),
        stop: Some((1, StopReason::Fault(Cause::BadCall))), to: 18 },
    Row { points: &NOTHING, from: 18, call: Call::Step(0, ONE), stop: None, to: 20 },
    Row { points: &NOTHING, from: 0, call: Call::Step(0, TO_LOAD),
        stop: Some((0, StopReason::Ready)), to: 6 },
    Row { points: &BREAK, from: 6, call: Call::Step(0, ONE),
        stop: Some((0, StopReason::Software)), to: 6 },
    Row { points: &BREAK, from: 0, call: Call::Step(0, TO_STORE),
        stop: Some((0, StopReason::Software)), to: 6 },
    Row { points: &CHANGE, from: 10, call: Call::Step(0, ONE),
        stop: Some((1, StopReason::Change { address: 0x11000 })), to: 11 },
    Row { points: &CHANGE, from: 2, call: Call::Step(1, ONE),
        stop: Some((0, StopReason::Change { address: 0x11000 })), to: 4 },
    Row { points: &NOTHING, from: 0, call: Call::StepAlone(1, ONE),
        stop: Some((1, StopReason::Done)), to: 2 },
    Row { points: &BREAK, from: 6, call: Call::StepAlone(1, ONE),
        stop: Some((1, StopReason::Software)), to: 7 },
    Row { points: &CHANGE, from: 4, call: Call::StepAlone(1, ONE),
        stop: Some((1, StopReason::Done)), to: 6 },
    Row { points: &NOTHING, from: 17, call: Call::StepAlone(1, ONE),
        stop: Some((1, StopReason::Fault(Cause::BadCall))), to: 18 },
    Row { points: &NOTHING, from: 14, call: Call::StepAlone(0, TO_CALL),
        stop: Some((0, StopReason::Done)), to: 15 },
    Row { points: &NOTHING, from: 16, call: Call::StepAlone(0, ONE),
        stop: Some((0, StopReason::Done)), to: 17 },
];

// Makes a move.
fn make(
    alloc: Global,
    debugger: &mut Debugger<Global>,
    points: &Points<Global>,
    call: Call,
) -> Result<Option<ThreadStop>, AllocError> {
    match call {
        Call::Forward(whose) => forward(alloc, debugger, points, whose),
        Call::Backward(whose) => backward(alloc, debugger, points, whose),
        Call::StepBack(whose, hart) => step_back(alloc, debugger, points, whose, hart),
        Call::Step(hart, range) => step(alloc, debugger, points, hart, range),
        Call::StepAlone(hart, range) => step_alone(alloc, debugger, points, hart, range),
    }
}

/// Puts points in.
pub fn points_of(alloc: Global, list: &[Point]) -> Option<Points<Global>> {
    let mut points = Points::new(alloc);
    for point in list {
        points.insert(*point).ok()?;
    }
    Some(points)
}

// Whether a move stops as its row says.
fn stops_there(alloc: Global, debugger: &mut Debugger<Global>, row: &Row) -> Option<bool> {
    let points = points_of(alloc, row.points)?;
    debugger.goto(alloc, row.from).ok()?;
    let stop = make(alloc, debugger, &points, row.call).ok()?;
    let told = match stop {
        Some(stop) => Some((stop.hart, stop.reason)),
        None => None,
    };
    Some(told == row.stop && debugger.position() == row.to)
}

// The number of rows up to the first that isn't as it says.
fn count_rows(alloc: Global) -> Option<usize> {
    let mut debugger = begin(alloc)?;
    for (number, row) in ROWS.iter().enumerate() {
        if !stops_there(alloc, &mut debugger, row)? {
            return Some(number);
        }
    }
    Some(ROWS.len())
}

#[test]
fn moves_stop_where_the_model_stops(rt: HostRuntime) {
    assert!(rt; count_rows(rt.alloc()) == Some(ROWS.len()));
}
