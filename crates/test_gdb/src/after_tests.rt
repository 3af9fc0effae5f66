//! Tests moves of all harts after steps of one hart alone, as the model in Python moves.
use crate::moves_tests::{
    ACCESS, BOTH, BREAK, BREAKS, CHANGE, HIGH_CHANGE, NOTHING, READ, points_of,
};
use crate::run::begin;
use debug_session::Debugger;
use gdb_moves::{
    AddressRange, AloneSteps, Points, StopReason, ThreadStop, Way, Whose, backward_after,
    forward_after, own_choice, step_alone, step_back,
};
use gdb_requests::Point;
use hart_step::Cause;
use std::alloc::{AllocError, Global};

// Steps of a hart alone from a position, without points.
#[derive(Clone, Copy)]
struct Steps {
    way: Way,
    hart: u32,
    count: usize,
    from: usize,
}

// A move of all harts after steps alone, with points that are put in between; the hart of the stop
// and its reason, and the position of the stop.
struct Row {
    steps: Steps,
    points: &'static [Point],
    way: Way,
    stop: Option<(u32, StopReason)>,
    to: usize,
}

#[rattlefmt::skip]
static ROWS: [Row; 56] = [
    Row { steps: Steps { way: Way::Backwards, hart: 1, count: 1, from: 17 }, points: &ACCESS,
        way: Way::Backwards, stop: Some((1, StopReason::Access { address: 0x11000 })), to: 12 },
    Row { steps: Steps { way: Way::Backwards, hart: 1, count: 2, from: 20 }, points: &BOTH,
        way: Way::Backwards, stop: Some((1, StopReason::Change { address: 0x11000 })), to: 12 },
    Row { steps: Steps { way: Way::Backwards, hart: 0, count: 1, from: 10 }, points: &BREAKS,
        way: Way::Backwards, stop: Some((1, StopReason::Software)), to: 7 },
    Row { steps: Steps { way: Way::Backwards, hart: 0, count: 1, from: 3 }, points: &HIGH_CHANGE,
        way: Way::Backwards, stop: None, to: 0 },
    Row { steps: Steps { way: Way::Backwards, hart: 1, count: 1, from: 13 }, points: &ACCESS,
        way: Way::Backwards, stop: Some((1, StopReason::Access { address: 0x11001 })), to: 11 },
    Row { steps: Steps { way: Way::Backwards, hart: 1, count: 2, from: 13 }, points: &BOTH,
        way: Way::Backwards, stop: Some((0, StopReason::Change { address: 0x11000 })), to: 10 },
    Row { steps: Steps { way: Way::Backwards, hart: 1, count: 3, from: 20 }, points: &BREAKS,
        way: Way::Backwards, stop: Some((0, StopReason::Hardware)), to: 12 },
    Row { steps: Steps { way: Way::Backwards, hart: 1, count: 1, from: 5 }, points: &READ,
        way: Way::Backwards, stop: Some((0, StopReason::Read { address: 0x11002 })), to: 3 },
    Row { steps: Steps { way: Way::Backwards, hart: 1, count: 1, from: 8 }, points: &BREAKS,
        way: Way::Backwards, stop: Some((0, StopReason::Software)), to: 6 },
    Row { steps: Steps { way: Way::Backwards, hart: 0, count: 3, from: 3 }, points: &ACCESS,
        way: Way::Backwards, stop: None, to: 0 },
    Row { steps: Steps { way: Way::Backwards, hart: 0, count: 2, from: 11 }, points: &ACCESS,
        way: Way::Backwards, stop: Some((1, StopReason::Access { address: 0x11001 })), to: 11 },
    Row { steps: Steps { way: Way::Backwards, hart: 1, count: 3, from: 10 }, points: &BOTH,
        way: Way::Backwards, stop: Some((0, StopReason::Change { address: 0x11000 })), to: 10 },
    Row { steps: Steps { way: Way::Backwards, hart: 0, count: 2, from: 16 }, points: &BREAKS,
        way: Way::Backwards, stop: Some((1, StopReason::Hardware)), to: 13 },
    Row { steps: Steps { way: Way::Backwards, hart: 0, count: 1, from: 4 }, points: &READ,
        way: Way::Backwards, stop: Some((1, StopReason::Read { address: 0x11002 })), to: 4 },
    Row { steps: Steps { way: Way::Backwards, hart: 0, count: 3, from: 8 }, points: &BREAKS,
        way: Way::Backwards, stop: Some((1, StopReason::Software)), to: 7 },
    Row { steps: Steps { way: Way::Backwards, hart: 1, count: 3, from: 11 }, points: &ACCESS,
        way: Way::Backwards, stop: Some((0, StopReason::Access { address: 0x11000 })), to: 10 },
    Row { steps: Steps { way: Way::Backwards, hart: 1, count: 3, from: 13 }, points: &CHANGE,
        way: Way::Backwards, stop: Some((0, StopReason::Change { address: 0x11000 })), to: 10 },
    Row { steps: Steps { way: Way::Backwards, hart: 1, count: 2, from: 15 }, points: &BREAKS,
        way: Way::Backwards, stop: Some((0, StopReason::Hardware)), to: 12 },
    Row { steps: Steps { way: Way::Backwards, hart: 1, count: 3, from: 13 }, points: &READ,
        way: Way::Backwards, stop: Some((0, StopReason::Read { address: 0x11002 })), to: 10 },
    Row { steps: Steps { way: Way::Backwards, hart: 1, count: 3, from: 8 }, points: &BOTH,
        way: Way::Backwards, stop: Some((0, StopReason::Software)), to: 4 },
    Row { steps: Steps { way: Way::Backwards, hart: 1, count: 1, from: 6 }, points: &NOTHING,
        way: Way::Backwards, stop: None, to: 0 },
    Row { steps: Steps { way: Way::Backwards, hart: 1, count: 3, from: 0 }, points: &CHANGE,
        way: Way::Forwards, stop: Some((0, StopReason::Change { address: 0x11000 })), to: 4 },
    Row { steps: Steps { way: Way::Backwards, hart: 0, count: 1, from: 9 }, points: &BREAKS,
        way: Way::Forwards, stop: Some((0, StopReason::Hardware)), to: 12 },
    Row { steps: Steps { way: Way::Backwards, hart: 1, count: 3, from: 1 }, points: &BREAKS,
        way: Way::Forwards, stop: Some((0, StopReason::Software)), to: 6 },
    Row { steps: Steps { way: Way::Backwards, hart: 0, count: 2, from: 14 }, points: &ACCESS,
        way: Way::Forwards, stop: Some((0, StopReason::Access { address: 0x11000 })), to: 9 },
    Row { steps: Steps { way: Way::Backwards, hart: 0, count: 3, from: 18 }, points: &CHANGE,
        way: Way::Forwards, stop: Some((1, StopReason::Fault(Cause::BadCall))), to: 18 },
    Row { steps: Steps { way: Way::Backwards, hart: 0, count: 3, from: 9 }, points: &BREAKS,
        way: Way::Forwards, stop: Some((0, StopReason::Software)), to: 6 },
    Row { steps: Steps { way: Way::Forwards, hart: 1, count: 1, from: 16 }, points: &BREAKS,
        way: Way::Backwards, stop: Some((1, StopReason::Hardware)), to: 13 },
    Row { steps: Steps { way: Way::Forwards, hart: 0, count: 1, from: 19 }, points: &READ,
        way: Way::Backwards, stop: Some((1, StopReason::Read { address: 0x11002 })), to: 12 },
    Row { steps: Steps { way: Way::Forwards, hart: 0, count: 3, from: 17 }, points: &BREAK,
        way: Way::Backwards, stop: Some((1, StopReason::Software)), to: 7 },
    Row { steps: Steps { way: Way::Forwards, hart: 0, count: 3, from: 19 }, points: &NOTHING,
        way: Way::Backwards, stop: None, to: 0 },
    Row { steps: Steps { way: Way::Forwards, hart: 1, count: 1, from: 11 }, points: &ACCESS,
        way: Way::Backwards, stop: Some((1, StopReason::Access { address: 0x11000 })), to: 12 },
    Row { steps: Steps { way: Way::Forwards, hart: 1, count: 1, from: 4 }, points: &CHANGE,
        way: Way::Backwards, stop: Some((0, StopReason::Change { address: 0x11000 })), to: 5 },
    Row { steps: Steps { way: Way::Forwards, hart: 1, count: 2, from: 0 }, points: &READ,
        way: Way::Backwards, stop: Some((1, StopReason::Read { address: 0x11002 })), to: 4 },
    Row { steps: Steps { way: Way::Forwards, hart: 1, count: 3, from: 0 }, points: &BOTH,
        way: Way::Backwards, stop: Some((1, StopReason::Software)), to: 5 },
    Row { steps: Steps { way: Way::Forwards, hart: 0, count: 1, from: 0 }, points: &CHANGE,
        way: Way::Forwards, stop: Some((0, StopReason::Change { address: 0x11000 })), to: 4 },
    Row { steps: Steps { way: Way::Forwards, hart: 1, count: 1, from: 12 }, points: &READ,
        way: Way::Forwards, stop: Some((1, StopReason::Fault(Cause::BadCall))), to: 18 },
    Row { steps: Steps { way: Way::Forwards, hart: 0, count: 1, from: 8 }, points: &BREAKS,
        way: Way::Forwards, stop: Some((0, StopReason::Hardware)), to: 12 },
    Row { steps: Steps { way: Way::Forwards, hart: 0, count: 1, from: 1 }, points: &ACCESS,
        way: Way::Forwards, stop: Some((1, StopReason::Access { address: 0x11000 })), to: 3 },
    Row { steps: Steps { way: Way::Forwards, hart: 0, count: 2, from: 8 }, points: &CHANGE,
        way: Way::Forwards, stop: Some((1, StopReason::Change { address: 0x11000 })), to: 11 },
    Row { steps: Steps { way: Way::Forwards, hart: 1, count: 1, from: 11 }, points: &CHANGE,
        way: Way::Forwards, stop: Some((1, StopReason::Fault(Cause::BadCall))), to: 18 },
    Row { steps: Steps { way: Way::Forwards, hart: 0, count: 1, from: 12 }, points: &BREAKS,
        way: Way::Forwards, stop: Some((1, StopReason::Hardware)), to: 13 },
    Row { steps: Steps { way: Way::Forwards, hart: 1, count: 1, from: 7 }, points: &READ,
        way: Way::Forwards, stop: Some((0, StopReason::Read { address: 0x11002 })), to: 9 },
    Row { steps: Steps { way: Way::Forwards, hart: 0, count: 2, from: 1 }, points: &BOTH,
        way: Way::Forwards, stop: Some((1, StopReason::Software)), to: 5 },
    Row { steps: Steps { way: Way::Forwards, hart: 0, count: 2, from: 11 }, points: &ACCESS,
        way: Way::Forwards, stop: Some((1, StopReason::Access { address: 0x11000 })), to: 11 },
    Row { steps: Steps { way: Way::Forwards, hart: 1, count: 1, from: 9 }, points: &CHANGE,
        way: Way::Forwards, stop: Some((0, StopReason::Change { address: 0x11000 })), to: 9 },
    Row { steps: Steps { way: Way::Forwards, hart: 0, count: 3, from: 16 }, points: &HIGH_CHANGE,
        way: Way::Forwards, stop: Some((1, StopReason::Fault(Cause::BadCall))), to: 18 },
    Row { steps: Steps { way: Way::Forwards, hart: 1, count: 2, from: 12 }, points: &BREAKS,
        way: Way::Forwards, stop: Some((0, StopReason::Hardware)), to: 12 },
    Row { steps: Steps { way: Way::Forwards, hart: 1, count: 2, from: 8 }, points: &READ,
        way: Way::Forwards, stop: Some((0, StopReason::Read { address: 0x11002 })), to: 9 },
    Row { steps: Steps { way: Way::Forwards, hart: 1, count: 3, from: 5 }, points: &BREAKS,
        way: Way::Forwards, stop: Some((0, StopReason::Software)), to: 6 },
    Row { steps: Steps { way: Way::Forwards, hart: 0, count: 3, from: 4 }, points: &ACCESS,
        way: Way::Forwards, stop: Some((1, StopReason::Access { address: 0x11000 })), to: 7 },
    Row { steps: Steps { way: Way::Forwards, hart: 0, count: 3, from: 9 }, points: &BOTH,
        way: Way::Forwards, stop: Some((1, StopReason::Change { address: 0x11000 })), to: 11 },
    Row { steps: Steps { way: Way::Forwards, hart: 0, count: 2, from: 10 }, points: &BREAKS,
        way: Way::Forwards, stop: Some((1, StopReason::Hardware)), to: 13 },
    Row { steps: Steps { way: Way::Forwards, hart: 0, count: 3, from: 8 }, points: &READ,
        way: Way::Forwards, stop: Some((1, StopReason::Read { address: 0x11002 })), to: 11 },
    Row { steps: Steps { way: Way::Forwards, hart: 0, count: 3, from: 3 }, points: &BREAKS,
        way: Way::Forwards, stop: Some((1, StopReason::Software)), to: 7 },
    Row { steps: Steps { way: Way::Forwards, hart: 1, count: 1, from: 17 }, points: &BREAK,
        way: Way::Forwards, stop: None, to: 20 },
];

// The range that any step leaves.
const NO_RANGE: AddressRange = AddressRange { from: 0, to: 0 };

// Makes one step of a hart alone.
fn step_once(
    alloc: Global,
    debugger: &mut Debugger<Global>,
    points: &Points<Global>,
    way: Way,
    hart: u32,
) -> Result<Option<ThreadStop>, AllocError> {
    match way {
        Way::Forwards => step_alone(alloc, debugger, points, hart, NO_RANGE),
        Way::Backwards => step_back(alloc, debugger, points, Whose::One(hart), hart),
    }
}

// Makes steps of a hart alone.
fn make_steps(
    alloc: Global,
    debugger: &mut Debugger<Global>,
    steps: Steps,
) -> Option<AloneSteps<Global>> {
    let none = Points::new(alloc);
    debugger.goto(alloc, steps.from).ok()?;
    let mut alone = AloneSteps::new(alloc, steps.way, steps.from);
    for _ in 0..steps.count {
        let stop = step_once(alloc, debugger, &none, steps.way, steps.hart).ok()?;
        let own = own_choice(steps.way, debugger.position(), stop);
        alone.add_if(own).ok()?;
    }
    Some(alone)
}

// Moves all harts after steps alone.
fn make(
    alloc: Global,
    debugger: &mut Debugger<Global>,
    points: &Points<Global>,
    way: Way,
    alone: &AloneSteps<Global>,
) -> Result<Option<ThreadStop>, AllocError> {
    match way {
        Way::Forwards => forward_after(alloc, debugger, points, alone),
        Way::Backwards => backward_after(alloc, debugger, points, alone),
    }
}

// Whether a move stops as its row says.
fn stops_there(alloc: Global, debugger: &mut Debugger<Global>, row: &Row) -> Option<bool> {
    let alone = make_steps(alloc, debugger, row.steps)?;
    let points = points_of(alloc, row.points)?;
    let stop = make(alloc, debugger, &points, row.way, &alone).ok()?;
    let told = match stop {
        Some(stop) => Some((stop.hart, stop.reason)),
        None => None,
    };
    Some(told == row.stop && debugger.position() == row.to)
}

// The number of rows up to the first that isn't as it says.
fn count_rows(alloc: Global) -> Option<usize> {
    let mut debugger = begin(alloc)?;
    for (number, row) in ROWS.iter().enumerate() {
        if !stops_there(alloc, &mut debugger, row)? {
            return Some(number);
        }
    }
    Some(ROWS.len())
}

#[test]
fn moves_after_steps_alone_stop_where_the_model_stops(rt: HostRuntime) {
    assert!(rt; count_rows(rt.alloc()) == Some(ROWS.len()));
}
