//! Moves.
ghost use Rattle.std.specs.Prelude.{◌≡◌, ◌≤◌, ◌<◌, OnOk, OnErr, IfOk, IfSome};
ghost use Rattle.debug_session.specs.Searches.{IsLeastStop, IsGreatestStop};
ghost use Rattle.debug_session.specs.Session.{session, moved, length_of, reason_at};
ghost use Rattle.gdb_moves.specs.Points.{marked};
ghost use Rattle.gdb_moves.specs.Reasons.{wanted_stop};
ghost use Rattle.gdb_moves.specs.Moves.{behind_ahead, behind_back};
ghost use Rattle.gdb_moves.specs.declared.goal.Goal.TheVariants.{Ahead, Back, StepBack};

use crate::goal::Goal;
use crate::points::Points;
use crate::search::Search;
use crate::stop::{StopReason, ThreadStop, Whose};
use debug_session::Debugger;
use std::alloc::{AllocError, Allocator};

/// The position of a move forwards that has found a stop behind which k choices are done: before a
/// hit, and behind a fault.
pub fn place_ahead(k: usize, stop: Option<ThreadStop>) -> usize
    requires { IfSome stop (λ _. 0 < k) }
    ensures behind { behind_ahead result stop ≡ k }
    ensures inside { result ≤ k }
{
    let Some(stop) = stop else {
        return k;
    };
    match stop.reason {
        StopReason::Fault(_) | StopReason::Done => k,
        _ => k - 1,
    }
}

/// The position of a move backwards that has found a stop behind which k choices are done: behind a
/// watch, and before a breakpoint.
pub fn place_back(k: usize, stop: Option<ThreadStop>) -> usize
    requires { IfSome stop (λ _. 0 < k) }
    ensures behind { behind_back result stop ≡ k }
    ensures inside { result ≤ k }
{
    let Some(stop) = stop else {
        return k;
    };
    match stop.reason {
        StopReason::Software | StopReason::Hardware | StopReason::Ready => k - 1,
        _ => k,
    }
}

/// Moves to a position. Fails when out of memory.
pub fn move_to<A: Allocator + Copy>(
    alloc: A,
    debugger: &mut Debugger<A>,
    k: usize,
) -> Result<(), AllocError>
    requires { k ≤ length_of (session debugger.old) }
    ensures ok { OnOk result (session debugger.new ≡ moved (session debugger.old) k) }
    ensures err { OnErr result (session debugger.new ≡ session debugger.old) }
{
    match debugger.goto(alloc, k) {
        Ok(()) => Ok(()),
        Err(_) => Err(AllocError),
    }
}

/// Moves forwards to just before the first hit from the position on, the position's own choice
/// included, or to just behind the first fault if that comes first; returns the stop. With neither
/// it moves to the end and returns `None`. Fails when out of memory.
pub fn forward<A: Allocator + Copy>(
    alloc: A,
    debugger: &mut Debugger<A>,
    points: &Points<A>,
    whose: Whose,
) -> Result<Option<ThreadStop>, AllocError>
    ensures least { IfOk result (λ stop. IsLeastStop
        (reason_at (wanted_stop (marked points.now) whose Ahead) (session debugger.old))
        (session debugger.old).position (length_of (session debugger.old))
        (behind_ahead (session debugger.new).position stop) stop) }
    ensures moved { OnOk result (session debugger.new
        ≡ moved (session debugger.old) (session debugger.new).position) }
    ensures err { OnErr result (session debugger.new ≡ session debugger.old) }
{
    let search = Search {
        points,
        whose,
        goal: Goal::Ahead,
    };
    let target = debugger.next(alloc, &search)?;
    let stop = target.reason();
    move_to(alloc, debugger, place_ahead(target.position(), stop))?;
    Ok(stop)
}

// Moves backwards to the greatest stop of a goal.
fn go_back<A: Allocator + Copy>(
    alloc: A,
    debugger: &mut Debugger<A>,
    search: &Search<A>,
) -> Result<Option<ThreadStop>, AllocError>
    ensures greatest { IfOk result (λ stop. IsGreatestStop
        (reason_at (wanted_stop (marked search.now.points.now) search.now.whose search.now.goal)
        (session debugger.old))
        (session debugger.old).position (behind_back (session debugger.new).position stop) stop) }
    ensures moved { OnOk result (session debugger.new
        ≡ moved (session debugger.old) (session debugger.new).position) }
    ensures err { OnErr result (session debugger.new ≡ session debugger.old) }
{
    let target = debugger.last_below(alloc, search, debugger.position())?;
    let stop = target.reason();
    move_to(alloc, debugger, place_back(target.position(), stop))?;
    Ok(stop)
}

/// Moves backwards to just before the last breakpoint hit below the position, or to just behind the
/// last watch hit, whichever comes first on the way; the watch, if one choice is both. Returns the
/// stop. With neither it moves to the start and returns `None`. Fails when out of memory.
pub fn backward<A: Allocator + Copy>(
    alloc: A,
    debugger: &mut Debugger<A>,
    points: &Points<A>,
    whose: Whose,
) -> Result<Option<ThreadStop>, AllocError>
    ensures greatest { IfOk result (λ stop. IsGreatestStop
        (reason_at (wanted_stop (marked points.now) whose Back) (session debugger.old))
        (session debugger.old).position (behind_back (session debugger.new).position stop) stop) }
    ensures moved { OnOk result (session debugger.new
        ≡ moved (session debugger.old) (session debugger.new).position) }
    ensures err { OnErr result (session debugger.new ≡ session debugger.old) }
{
    let search = Search {
        points,
        whose,
        goal: Goal::Back,
    };
    go_back(alloc, debugger, &search)
}

/// Moves backwards to just before a thread's last step below the position; hits on the way stop it
/// as they stop `backward`. Returns the stop. If the thread has no step there, it moves to the
/// start and returns `None`. Fails when out of memory.
pub fn step_back<A: Allocator + Copy>(
    alloc: A,
    debugger: &mut Debugger<A>,
    points: &Points<A>,
    whose: Whose,
    hart: u32,
) -> Result<Option<ThreadStop>, AllocError>
    ensures greatest { IfOk result (λ stop. IsGreatestStop
        (reason_at (wanted_stop (marked points.now) whose (StepBack hart)) (session debugger.old))
        (session debugger.old).position (behind_back (session debugger.new).position stop) stop) }
    ensures moved { OnOk result (session debugger.new
        ≡ moved (session debugger.old) (session debugger.new).position) }
    ensures err { OnErr result (session debugger.new ≡ session debugger.old) }
{
    let search = Search {
        points,
        whose,
        goal: Goal::StepBack { hart },
    };
    go_back(alloc, debugger, &search)
}
