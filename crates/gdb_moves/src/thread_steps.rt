//! Steps of a thread.
ghost use Rattle.std.specs.Prelude.{◌≡◌, ◌≤◌, ◌<◌, [], option_map, OnOk, OnErr, IfOk, IfSome};
ghost use Rattle.debug_session.specs.Session.{session, moved, length_of};
ghost use Rattle.gdb_moves.specs.After.{alone_of, begin_of, passed_of};
ghost use Rattle.gdb_moves.specs.Points.{marked};
ghost use Rattle.gdb_moves.specs.Moves.{behind_ahead};
ghost use Rattle.gdb_moves.specs.Steps.{is_ready, or_done, step_done, then_next, alone_stop, step_found, step_alone_found};
ghost use Rattle.gdb_moves.specs.declared.alone_steps.Way.TheVariants.{Forwards};

use crate::alone_steps::{AloneSteps, Way};
use crate::goal::Goal;
use crate::moves::{move_to, place_ahead};
use crate::passing::{Met, first_met};
use crate::points::Points;
use crate::search::Search;
use crate::stop::{AddressRange, StopReason, ThreadStop, Whose};
use debug_session::Debugger;
use std::alloc::{AllocError, Allocator};

// Whether a thread's step is done and the thread goes on.
fn is_ready(stop: ThreadStop) -> bool
    ensures { result ≡ is_ready stop.reason }
{
    match stop.reason {
        StopReason::Ready => true,
        _ => false,
    }
}

// The stop of a thread whose step is done.
fn done(hart: u32) -> ThreadStop
    ensures { result ≡ step_done hart }
{
    ThreadStop {
        hart,
        reason: StopReason::Done,
    }
}

// A stop, or that of a thread whose step is done if there is none.
fn or_done(hart: u32, stop: Option<ThreadStop>) -> Option<ThreadStop>
    ensures { result ≡ or_done hart stop }
{
    match stop {
        Some(stop) => Some(stop),
        None => Some(done(hart)),
    }
}

// Goes on from a step of a thread that is done to just before its next choice, or to a hit or fault
// before that; passes choices.
fn then_next<A: Allocator + Copy>(
    alloc: A,
    debugger: &Debugger<A>,
    points: &Points<A>,
    hart: u32,
    passed: &[usize],
    own: Met,
) -> Result<Met, AllocError>
    requires inside { own.position ≤ length_of (session debugger.now) }
    requires above { IfSome own.stop (λ _. 0 < own.position) }
    ensures found { IfOk result (λ met. (met.position, met.stop)
        ≡ then_next (marked points.now) hart passed.now (session debugger.now) own.position
        own.stop) }
    ensures inside { IfOk result (λ met. met.position ≤ length_of (session debugger.now)) }
    ensures above { IfOk result (λ met. IfSome met.stop (λ _. 0 < met.position)) }
{
    let Some(stop) = own.stop else {
        return Ok(own);
    };
    if !is_ready(stop) {
        return Ok(own);
    }
    let search = Search {
        points,
        whose: Whose::All,
        goal: Goal::Next { hart },
    };
    let next = first_met(alloc, debugger, &search, passed, own.position)?;
    Ok(Met {
        position: next.position,
        stop: or_done(hart, next.stop),
    })
}

// Where a step of a thread ends that begins at a choice and passes choices.
fn step_end<A: Allocator + Copy>(
    alloc: A,
    debugger: &Debugger<A>,
    points: &Points<A>,
    hart: u32,
    range: AddressRange,
    passed: &[usize],
    from: usize,
) -> Result<Met, AllocError>
    ensures found { IfOk result (λ met. (met.position, met.stop)
        ≡ step_found (marked points.now) hart range passed.now from (session debugger.now)) }
    ensures inside { IfOk result (λ met. met.position ≤ length_of (session debugger.now)) }
    ensures above { IfOk result (λ met. IfSome met.stop (λ _. 0 < met.position)) }
{
    let search = Search {
        points,
        whose: Whose::All,
        goal: Goal::Step { hart, range },
    };
    let own = first_met(alloc, debugger, &search, passed, from)?;
    then_next(alloc, debugger, points, hart, passed, own)
}

/// A step of a thread: moves to its next choice that leaves the range, and on to just before the
/// one after it; hits and faults on the way stop it as they stop `forward`. If the step has ended
/// the thread, or no choice of it comes after it, the position is just behind the step or at the
/// end. Returns the stop. A thread that has stopped has no step; then it moves to the end and
/// returns `None`. Fails when out of memory.
pub fn step<A: Allocator + Copy>(
    alloc: A,
    debugger: &mut Debugger<A>,
    points: &Points<A>,
    hart: u32,
    range: AddressRange,
) -> Result<Option<ThreadStop>, AllocError>
    ensures found { IfOk result (λ stop. (behind_ahead (session debugger.new).position stop, stop)
        ≡ step_found (marked points.now) hart range [] (session debugger.old).position
        (session debugger.old)) }
    ensures moved { OnOk result (session debugger.new
        ≡ moved (session debugger.old) (session debugger.new).position) }
    ensures err { OnErr result (session debugger.new ≡ session debugger.old) }
{
    let met = step_end(
        alloc,
        debugger,
        points,
        hart,
        range,
        &[],
        debugger.position(),
    )?;
    move_to(alloc, debugger, place_ahead(met.position, met.stop))?;
    Ok(met.stop)
}

/// `step` of a thread where all threads move, after steps alone: if they went forwards, it begins
/// where they began and passes their own choices. Fails when out of memory.
pub fn step_after<A: Allocator + Copy>(
    alloc: A,
    debugger: &mut Debugger<A>,
    points: &Points<A>,
    alone: &AloneSteps<A>,
    hart: u32,
    range: AddressRange,
) -> Result<Option<ThreadStop>, AllocError>
    ensures found { IfOk result (λ stop. (behind_ahead (session debugger.new).position stop, stop)
        ≡ step_found (marked points.now) hart range (passed_of Forwards (alone_of alone.now))
        (begin_of Forwards (alone_of alone.now) (session debugger.old).position)
        (session debugger.old)) }
    ensures moved { OnOk result (session debugger.new
        ≡ moved (session debugger.old) (session debugger.new).position) }
    ensures err { OnErr result (session debugger.new ≡ session debugger.old) }
{
    let passed = alone.passed_of(Way::Forwards);
    let begin = alone.begin_of(Way::Forwards, debugger.position());
    let met = step_end(alloc, debugger, points, hart, range, passed, begin)?;
    move_to(alloc, debugger, place_ahead(met.position, met.stop))?;
    Ok(met.stop)
}

// The stop of a thread that moves alone: its step is done, whatever comes next.
fn alone(stop: ThreadStop) -> ThreadStop
    ensures { result ≡ alone_stop stop }
{
    if is_ready(stop) {
        done(stop.hart)
    } else {
        stop
    }
}

// The stop of a thread that moves alone, if there is one.
fn alone_if(stop: Option<ThreadStop>) -> Option<ThreadStop>
    ensures { result ≡ option_map alone_stop stop }
{
    match stop {
        Some(stop) => Some(alone(stop)),
        None => None,
    }
}

/// A step of a thread alone: moves to just behind its next choice that leaves the range; only its
/// own hits and faults stop it. Returns the stop. A thread that has stopped has no step; then it
/// moves to the end and returns `None`. Fails when out of memory.
pub fn step_alone<A: Allocator + Copy>(
    alloc: A,
    debugger: &mut Debugger<A>,
    points: &Points<A>,
    hart: u32,
    range: AddressRange,
) -> Result<Option<ThreadStop>, AllocError>
    ensures found { IfOk result (λ stop. (behind_ahead (session debugger.new).position stop, stop)
        ≡ step_alone_found (marked points.now) hart range (session debugger.old)) }
    ensures moved { OnOk result (session debugger.new
        ≡ moved (session debugger.old) (session debugger.new).position) }
    ensures err { OnErr result (session debugger.new ≡ session debugger.old) }
{
    let search = Search {
        points,
        whose: Whose::One(hart),
        goal: Goal::Step { hart, range },
    };
    let target = debugger.next(alloc, &search)?;
    let stop = alone_if(target.reason());
    move_to(alloc, debugger, place_ahead(target.position(), stop))?;
    Ok(stop)
}
