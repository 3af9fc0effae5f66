//! The answer to a request that moves.
ghost use Rattle.std.specs.Prelude.{◌≡◌, ◌++◌, OnOk, OnErr, IfOk};
ghost use Rattle.debug_session.specs.Session.{moved, session};
ghost use Rattle.gdb_moves.specs.After.{alone_of};
ghost use Rattle.gdb_moves.specs.Points.{marked};
ghost use Rattle.gdb_replies.specs.Fronts.{BeginsWith};
ghost use Rattle.gdb_session.specs.Answers.{last_stop_text};
ghost use Rattle.gdb_session.specs.Moves.{EndsAt, Moves, steps_before};
ghost use Rattle.gdb_session.specs.Talk.{kept_of, talk_of};

use crate::keep::keep;
use crate::movement::Move;
use crate::returning::home;
use crate::selected::Selected;
use crate::talk::Talk;
use debug_session::Debugger;
use gdb_moves::{
    AloneSteps, Points, ThreadStop, Way, Whose, backward, backward_after, forward, forward_after,
    step_after, step_alone, step_any_after, step_back, step_back_after,
};
use gdb_replies::push_stop;
use std::alloc::{AllocError, Allocator};

// Moves through the run after steps alone, and returns the stop.
#[tactic(auto, unfolding(crate::specs::Moves::EndsAt))]
fn go<A: Allocator + Copy>(
    alloc: A,
    debugger: &mut Debugger<A>,
    points: &Points<A>,
    alone: &AloneSteps<A>,
    movement: Move,
) -> Result<Option<ThreadStop>, AllocError>
    ensures ends { IfOk result (λ stop. EndsAt (marked points.now) (alone_of alone.now) movement
        (session debugger.old) (session debugger.new).position stop) }
    ensures moved { OnOk result (session debugger.new
        ≡ moved (session debugger.old) (session debugger.new).position) }
    ensures err { OnErr result (session debugger.new ≡ session debugger.old) }
{
    match movement {
        Move::Ahead(Whose::All) => forward_after(alloc, debugger, points, alone),
        Move::Ahead(Whose::One(hart)) => forward(alloc, debugger, points, Whose::One(hart)),
        Move::Back(Whose::All) => backward_after(alloc, debugger, points, alone),
        Move::Back(Whose::One(hart)) => backward(alloc, debugger, points, Whose::One(hart)),
        Move::Step { hart, range } => step_after(alloc, debugger, points, alone, hart, range),
        Move::StepAny { range } => step_any_after(alloc, debugger, points, alone, range),
        Move::StepAlone { hart, range } => step_alone(alloc, debugger, points, hart, range),
        Move::StepBack {
            hart,
            whose: Whose::All,
        } => step_back_after(alloc, debugger, points, alone, hart),
        Move::StepBack {
            hart,
            whose: Whose::One(one),
        } => step_back(alloc, debugger, points, Whose::One(one), hart),
    }
}

// The same after the steps alone that are kept, or none.
fn go_on<A: Allocator + Copy>(
    alloc: A,
    debugger: &mut Debugger<A>,
    points: &Points<A>,
    kept: &Option<AloneSteps<A>>,
    movement: Move,
) -> Result<Option<ThreadStop>, AllocError>
    ensures ends { IfOk result (λ stop. EndsAt (marked points.now)
        (steps_before (session debugger.old).position (kept_of kept.now)) movement
        (session debugger.old) (session debugger.new).position stop) }
    ensures moved { OnOk result (session debugger.new
        ≡ moved (session debugger.old) (session debugger.new).position) }
    ensures err { OnErr result (session debugger.new ≡ session debugger.old) }
{
    match kept {
        Some(alone) => go(alloc, debugger, points, alone, movement),
        None => {
            let none = AloneSteps::new(alloc, Way::Forwards, debugger.position());
            go(alloc, debugger, points, &none, movement)
        }
    }
}

/// Moves, and appends the stop reply; returns the stop, or `None` if the move has come to the end
/// or the start of the list. The stop is then the last one, and its hart the one that is read. A
/// move of all harts after steps of one alone the same way begins where they began, and passes
/// their own choices. When out of memory, nothing has changed, but a beginning of the answer may
/// have been appended.
pub fn answer_move<A: Allocator + Copy>(
    alloc: A,
    talk: &mut Talk<A>,
    movement: Move,
    out: &mut Vec<u8, A>,
) -> Result<Option<ThreadStop>, AllocError>
    ensures moves { IfOk result (λ stop.
        Moves (talk_of talk.old) movement stop (talk_of talk.new)) }
    ensures text { OnOk result (out.new.items
        ≡ out.old.items ++ last_stop_text (talk_of talk.new).stop) }
    ensures err { OnErr result (talk_of talk.new ≡ talk_of talk.old) }
    ensures kept { OnErr result (BeginsWith out.new.items out.old.items) }
{
    let home = home(alloc, &talk.debugger)?;
    let from = talk.debugger.position();
    let stop = go_on(
        alloc,
        &mut talk.debugger,
        &talk.points,
        &talk.alone,
        movement,
    )?;
    let told = talk.stop_told(movement, stop);
    let to = talk.debugger.position();
    if push_stop(out, &told).is_err()
        || keep(alloc, &mut talk.alone, movement, from, to, stop).is_err()
    {
        talk.debugger.settle(home);
        return Err(AllocError);
    }
    talk.stop = Some(told);
    talk.reads = Selected::One(told.hart);
    Ok(stop)
}
