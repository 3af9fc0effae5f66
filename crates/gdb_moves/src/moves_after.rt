//! Moves of all threads after steps of a thread alone.
ghost use Rattle.std.specs.Prelude.{◌≡◌, OnOk, OnErr, IfOk};
ghost use Rattle.debug_session.specs.Searches.{IsLeastStop, IsGreatestStop};
ghost use Rattle.debug_session.specs.Session.{session, moved, length_of, reason_at};
ghost use Rattle.gdb_moves.specs.After.{alone_of, begin_of, passed_of, reason_unless};
ghost use Rattle.gdb_moves.specs.Points.{marked};
ghost use Rattle.gdb_moves.specs.Reasons.{wanted_stop};
ghost use Rattle.gdb_moves.specs.Moves.{behind_ahead, behind_back};
ghost use Rattle.gdb_moves.specs.declared.alone_steps.Way.TheVariants.{Forwards, Backwards};
ghost use Rattle.gdb_moves.specs.declared.goal.Goal.TheVariants.{Ahead, Any, Back, StepBack};
ghost use Rattle.gdb_moves.specs.declared.stop.Whose.TheVariants.{All};

use crate::alone_steps::{AloneSteps, Way};
use crate::goal::Goal;
use crate::moves::{move_to, place_ahead, place_back};
use crate::passing::{first_met, last_met};
use crate::points::Points;
use crate::search::Search;
use crate::stop::{AddressRange, ThreadStop, Whose};
use debug_session::Debugger;
use std::alloc::{AllocError, Allocator};

// Moves forwards to the least stop of a goal, of all threads, after steps alone.
fn go_ahead_after<A: Allocator + Copy>(
    alloc: A,
    debugger: &mut Debugger<A>,
    search: &Search<A>,
    alone: &AloneSteps<A>,
) -> Result<Option<ThreadStop>, AllocError>
    ensures least { IfOk result (λ stop. IsLeastStop
        (reason_unless (passed_of Forwards (alone_of alone.now)) (reason_at
        (wanted_stop (marked search.now.points.now) search.now.whose search.now.goal)
        (session debugger.old)))
        (begin_of Forwards (alone_of alone.now) (session debugger.old).position)
        (length_of (session debugger.old))
        (behind_ahead (session debugger.new).position stop) stop) }
    ensures moved { OnOk result (session debugger.new
        ≡ moved (session debugger.old) (session debugger.new).position) }
    ensures err { OnErr result (session debugger.new ≡ session debugger.old) }
{
    let passed = alone.passed_of(Way::Forwards);
    let begin = alone.begin_of(Way::Forwards, debugger.position());
    let met = first_met(alloc, debugger, search, passed, begin)?;
    move_to(alloc, debugger, place_ahead(met.position, met.stop))?;
    Ok(met.stop)
}

/// `forward` of all threads, after steps alone: if they went forwards, the search begins where they
/// began and passes their own choices, so the position may become less. Fails when out of memory.
pub fn forward_after<A: Allocator + Copy>(
    alloc: A,
    debugger: &mut Debugger<A>,
    points: &Points<A>,
    alone: &AloneSteps<A>,
) -> Result<Option<ThreadStop>, AllocError>
    ensures least { IfOk result (λ stop. IsLeastStop
        (reason_unless (passed_of Forwards (alone_of alone.now)) (reason_at
        (wanted_stop (marked points.now) All Ahead) (session debugger.old)))
        (begin_of Forwards (alone_of alone.now) (session debugger.old).position)
        (length_of (session debugger.old))
        (behind_ahead (session debugger.new).position stop) stop) }
    ensures moved { OnOk result (session debugger.new
        ≡ moved (session debugger.old) (session debugger.new).position) }
    ensures err { OnErr result (session debugger.new ≡ session debugger.old) }
{
    let search = Search {
        points,
        whose: Whose::All,
        goal: Goal::Ahead,
    };
    go_ahead_after(alloc, debugger, &search, alone)
}

/// A step of any thread, whichever comes next, after steps alone, which count as they do for
/// `forward_after`: moves to just behind the first choice of a running thread that leaves the
/// range; hits and faults on the way stop it. Returns the stop, which is of that choice's thread.
/// If no thread has a step, it moves to the end and returns `None`. Fails when out of memory.
pub fn step_any_after<A: Allocator + Copy>(
    alloc: A,
    debugger: &mut Debugger<A>,
    points: &Points<A>,
    alone: &AloneSteps<A>,
    range: AddressRange,
) -> Result<Option<ThreadStop>, AllocError>
    ensures least { IfOk result (λ stop. IsLeastStop
        (reason_unless (passed_of Forwards (alone_of alone.now)) (reason_at
        (wanted_stop (marked points.now) All (Any range)) (session debugger.old)))
        (begin_of Forwards (alone_of alone.now) (session debugger.old).position)
        (length_of (session debugger.old))
        (behind_ahead (session debugger.new).position stop) stop) }
    ensures moved { OnOk result (session debugger.new
        ≡ moved (session debugger.old) (session debugger.new).position) }
    ensures err { OnErr result (session debugger.new ≡ session debugger.old) }
{
    let search = Search {
        points,
        whose: Whose::All,
        goal: Goal::Any { range },
    };
    go_ahead_after(alloc, debugger, &search, alone)
}

// Moves backwards to the greatest stop of a goal, of all threads, after steps alone.
fn go_back_after<A: Allocator + Copy>(
    alloc: A,
    debugger: &mut Debugger<A>,
    search: &Search<A>,
    alone: &AloneSteps<A>,
) -> Result<Option<ThreadStop>, AllocError>
    ensures greatest { IfOk result (λ stop. IsGreatestStop
        (reason_unless (passed_of Backwards (alone_of alone.now)) (reason_at
        (wanted_stop (marked search.now.points.now) search.now.whose search.now.goal)
        (session debugger.old)))
        (begin_of Backwards (alone_of alone.now) (session debugger.old).position)
        (behind_back (session debugger.new).position stop) stop) }
    ensures moved { OnOk result (session debugger.new
        ≡ moved (session debugger.old) (session debugger.new).position) }
    ensures err { OnErr result (session debugger.new ≡ session debugger.old) }
{
    let passed = alone.passed_of(Way::Backwards);
    let begin = alone.begin_of(Way::Backwards, debugger.position());
    let met = last_met(alloc, debugger, search, passed, begin)?;
    move_to(alloc, debugger, place_back(met.position, met.stop))?;
    Ok(met.stop)
}

/// `backward` of all threads, after steps alone: if they went backwards, the search begins where
/// they began and passes their own choices, so the position may become greater. Fails when out of
/// memory.
pub fn backward_after<A: Allocator + Copy>(
    alloc: A,
    debugger: &mut Debugger<A>,
    points: &Points<A>,
    alone: &AloneSteps<A>,
) -> Result<Option<ThreadStop>, AllocError>
    ensures greatest { IfOk result (λ stop. IsGreatestStop
        (reason_unless (passed_of Backwards (alone_of alone.now)) (reason_at
        (wanted_stop (marked points.now) All Back) (session debugger.old)))
        (begin_of Backwards (alone_of alone.now) (session debugger.old).position)
        (behind_back (session debugger.new).position stop) stop) }
    ensures moved { OnOk result (session debugger.new
        ≡ moved (session debugger.old) (session debugger.new).position) }
    ensures err { OnErr result (session debugger.new ≡ session debugger.old) }
{
    let search = Search {
        points,
        whose: Whose::All,
        goal: Goal::Back,
    };
    go_back_after(alloc, debugger, &search, alone)
}

/// `step_back` of a thread where all threads move, after steps alone, which count as they do for
/// `backward_after`. Fails when out of memory.
pub fn step_back_after<A: Allocator + Copy>(
    alloc: A,
    debugger: &mut Debugger<A>,
    points: &Points<A>,
    alone: &AloneSteps<A>,
    hart: u32,
) -> Result<Option<ThreadStop>, AllocError>
    ensures greatest { IfOk result (λ stop. IsGreatestStop
        (reason_unless (passed_of Backwards (alone_of alone.now)) (reason_at
        (wanted_stop (marked points.now) All (StepBack hart)) (session debugger.old)))
        (begin_of Backwards (alone_of alone.now) (session debugger.old).position)
        (behind_back (session debugger.new).position stop) stop) }
    ensures moved { OnOk result (session debugger.new
        ≡ moved (session debugger.old) (session debugger.new).position) }
    ensures err { OnErr result (session debugger.new ≡ session debugger.old) }
{
    let search = Search {
        points,
        whose: Whose::All,
        goal: Goal::StepBack { hart },
    };
    go_back_after(alloc, debugger, &search, alone)
}
