//! Searches that pass choices without a look.
ghost use Rattle.std.specs.Prelude.{◌≡◌, ◌≤◌, ◌<◌, IfOk, IfSome};
ghost use Rattle.debug_session.specs.Searches.{IsLeastStop, IsGreatestStop};
ghost use Rattle.debug_session.specs.Session.{session, length_of, reason_at};
ghost use Rattle.gdb_moves.specs.Points.{marked};
ghost use Rattle.gdb_moves.specs.Reasons.{wanted_stop};
ghost use Rattle.gdb_moves.specs.After.{reason_unless};

use crate::alone_steps::is_own;
use crate::search::Search;
use crate::stop::ThreadStop;
use debug_session::Debugger;
use std::alloc::{AllocError, Allocator};

/// The end of a search: the position behind a choice, and the stop there.
#[derive(Clone, Copy)]
pub struct Met {
    /// The position.
    pub position: usize,
    /// The stop; `None` if the search has come to an end of the choices.
    pub stop: Option<ThreadStop>,
}

/// The least position above `from` behind a wanted choice that is not passed, or the end, also if
/// `from` is past it. Fails when out of memory.
pub fn first_met<A: Allocator + Copy>(
    alloc: A,
    debugger: &Debugger<A>,
    search: &Search<A>,
    passed: &[usize],
    from: usize,
) -> Result<Met, AllocError>
    ensures least { IfOk result (λ met. IsLeastStop
        (reason_unless passed.now (reason_at
        (wanted_stop (marked search.now.points.now) search.now.whose search.now.goal)
        (session debugger.now))) from (length_of (session debugger.now)) met.position met.stop) }
    ensures inside { IfOk result (λ met. met.position ≤ length_of (session debugger.now)) }
    ensures above { IfOk result (λ met. IfSome met.stop (λ _. 0 < met.position)) }
{
    let length = debugger.choices().len();
    if from > length {
        return Ok(Met {
            position: length,
            stop: None,
        });
    }
    let mut begin = from;
    'searches: loop {
        let target = debugger.first_from(alloc, search, begin)?;
        let position = target.position();
        let Some(stop) = target.reason() else {
            return Ok(Met {
                position,
                stop: None,
            });
        };
        if !is_own(passed, position - 1) {
            return Ok(Met {
                position,
                stop: Some(stop),
            });
        }
        begin = position;
    }
}

/// The greatest position behind a wanted choice that is not passed, among the first `below`
/// choices, or the start. Fails when out of memory.
pub fn last_met<A: Allocator + Copy>(
    alloc: A,
    debugger: &Debugger<A>,
    search: &Search<A>,
    passed: &[usize],
    below: usize,
) -> Result<Met, AllocError>
    ensures greatest { IfOk result (λ met. IsGreatestStop
        (reason_unless passed.now (reason_at
        (wanted_stop (marked search.now.points.now) search.now.whose search.now.goal)
        (session debugger.now))) below met.position met.stop) }
    ensures inside { IfOk result (λ met. met.position ≤ length_of (session debugger.now)) }
    ensures above { IfOk result (λ met. IfSome met.stop (λ _. 0 < met.position)) }
{
    let mut end = below.min(debugger.choices().len());
    'searches: loop {
        let target = debugger.last_below(alloc, search, end)?;
        let position = target.position();
        let Some(stop) = target.reason() else {
            return Ok(Met {
                position,
                stop: None,
            });
        };
        if !is_own(passed, position - 1) {
            return Ok(Met {
                position,
                stop: Some(stop),
            });
        }
        end = position - 1;
    }
}
