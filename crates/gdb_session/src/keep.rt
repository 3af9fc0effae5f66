//! What is kept of moves by which one hart goes alone.
ghost use Rattle.std.specs.Prelude.{◌≡◌, Some, OnOk, OnErr};
ghost use Rattle.gdb_moves.specs.After.{steps_alone_from, with_own};
ghost use Rattle.gdb_session.specs.Moves.{alone_after, own_after, way_kept};
ghost use Rattle.gdb_session.specs.Talk.{kept_of};

use crate::movement::Move;
use gdb_moves::{AloneSteps, ThreadStop, Way, Whose, own_choice};
use std::alloc::{AllocError, Allocator};

// The way of a move, if it is kept.
#[tactic(auto, unfolding(crate::specs::Moves::way_kept))]
fn way_kept(movement: Move) -> Option<Way>
    ensures { result ≡ way_kept movement }
{
    match movement {
        Move::Ahead(Whose::One(_)) => Some(Way::Forwards),
        Move::StepAlone { range, .. } => {
            if range.to <= range.from {
                Some(Way::Forwards)
            } else {
                None
            }
        }
        Move::StepBack {
            whose: Whose::One(_),
            ..
        } => Some(Way::Backwards),
        _ => None,
    }
}

// The own choice of a move that has stopped at a position.
#[tactic(auto, unfolding(crate::specs::Moves::own_after))]
fn own_after(movement: Move, position: usize, stop: Option<ThreadStop>) -> Option<usize>
    ensures { result ≡ own_after movement position stop }
{
    match movement {
        Move::StepAlone { .. } => own_choice(Way::Forwards, position, stop),
        Move::StepBack { .. } => own_choice(Way::Backwards, position, stop),
        _ => None,
    }
}

// Keeps a choice with the steps alone before it if they go its way, else it alone. When out of
// memory, nothing has changed.
fn keep_choice<A: Allocator + Copy>(
    alloc: A,
    kept: &mut Option<AloneSteps<A>>,
    way: Way,
    from: usize,
    choice: Option<usize>,
) -> Result<(), AllocError>
    ensures ok { OnOk result (kept_of kept.new
        ≡ Some (with_own (steps_alone_from way (kept_of kept.old) from) choice)) }
    ensures err { OnErr result (kept_of kept.new ≡ kept_of kept.old) }
{
    if let Some(steps) = kept {
        if steps.goes(way) {
            return steps.add_if(choice);
        }
    }
    let mut steps = AloneSteps::new(alloc, way, from);
    steps.add_if(choice)?;
    *kept = Some(steps);
    Ok(())
}

/// Keeps what a move from one position to another leaves: its own choice, or nothing. When out of
/// memory, nothing has changed.
pub fn keep<A: Allocator + Copy>(
    alloc: A,
    kept: &mut Option<AloneSteps<A>>,
    movement: Move,
    from: usize,
    to: usize,
    stop: Option<ThreadStop>,
) -> Result<(), AllocError>
    ensures ok { OnOk result (kept_of kept.new
        ≡ alone_after (kept_of kept.old) movement from to stop) }
    ensures err { OnErr result (kept_of kept.new ≡ kept_of kept.old) }
{
    match way_kept(movement) {
        Some(way) => keep_choice(alloc, kept, way, from, own_after(movement, to, stop)),
        None => {
            *kept = None;
            Ok(())
        }
    }
}
