//! Whether a run hangs, where that is asked.
ghost use Rattle.std.specs.Prelude.{◌≡◌, ◌<◌, ◌≤◌, IfOk, length};
ghost use Rattle.hart_reservations.specs.Limit.{most_harts};
ghost use Rattle.machine.specs.State.{state};
ghost use Rattle.run_hangs.specs.Asked.{hangs_if};

use crate::hanging::{hangs_from, steps_for};
use machine::Machine;
use mem_flat::FlatStore;
use std::alloc::{AllocError, Allocator};

/// Whether it is asked if a run hangs.
#[derive(Clone, Copy, PartialEq, Eq)]
pub enum Hangs {
    /// It isn't, and nothing is printed of it.
    Unasked,
    /// It is.
    Asked,
}

/// Whether a run that left a machine of `harts` harts so, by this number of choices, hangs, if that
/// is asked. The machine stays as it is. The only error is out of memory.
pub fn hangs_if<A: Allocator + Copy>(
    alloc: A,
    asked: Hangs,
    machine: &Machine<FlatStore<A>, A>,
    harts: u32,
    choices: usize,
) -> Result<Option<bool>, AllocError>
    requires some { 0 < harts }
    requires few { harts ≤ most_harts }
    requires there { length (state machine.now).harts ≡ harts }
    ensures { IfOk result (λ hangs. hangs ≡ hangs_if asked harts choices (state machine.now)) }
{
    match asked {
        Hangs::Unasked => Ok(None),
        Hangs::Asked => {
            let hangs = hangs_from(alloc, machine, harts, steps_for(choices))?;
            Ok(Some(hangs))
        }
    }
}
