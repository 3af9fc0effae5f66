//! Further steps of harts after a list of choices.
ghost use Rattle.std.specs.Prelude.{◌≡◌, ◌≤◌, true, OnOk, length};
ghost use Rattle.hart_reservations.specs.Limit.{most_harts};
ghost use Rattle.machine.specs.State.{state};
ghost use Rattle.machine.specs.World.{run};
ghost use Rattle.sched_draw.specs.Schedules.{choices_of, is_of_harts};

use machine::Machine;
use mem_flat::FlatStore;
use sched_draw::{Schedule, run_schedule};
use std::alloc::{AllocError, Allocator};

/// Takes `steps` further steps of a machine of `harts` harts under a schedule. The only error is
/// out of memory.
pub(crate) fn go_on<A: Allocator + Copy>(
    alloc: A,
    machine: &mut Machine<FlatStore<A>, A>,
    schedule: Schedule,
    harts: u32,
    steps: usize,
) -> Result<(), AllocError>
    requires of { is_of_harts schedule harts ≡ true }
    requires few { harts ≤ most_harts }
    requires there { length (state machine.old).harts ≡ harts }
    ensures run { OnOk result (state machine.new
        ≡ run (state machine.old) (choices_of schedule (state machine.old) harts steps)) }
    ensures there { OnOk result (length (state machine.new).harts ≡ harts) }
{
    run_schedule(alloc, machine, schedule, harts, steps as u64)?;
    Ok(())
}
