//! How harts are printed after a history.

ghost use Rattle.std.specs.Prelude.{◌≡◌, IfOk, map, string_bytes};
ghost use Rattle.hart_step.specs.Hart.{hart_of};
ghost use Rattle.history.specs.History.{expanded};
ghost use Rattle.cmd_run.specs.Run.{shown_with};
ghost use Rattle.outcome.specs.Ends.{verdict_on};

use byte_io::Status;
use cmd_run::{Expect, ends_text};
use hart_step::Hart;
use history::{Entry, chosen_harts};
use std::alloc::{AllocError, Allocator};

/// The harts' lines and, under a rule, the verdict on them by the choices that a history stands
/// for, which are never held as a list; and the status.
pub fn shown_after<A: Allocator + Copy>(
    alloc: A,
    inputs: &[u32],
    expect: Expect,
    history: &[Entry],
    harts: &[Hart],
) -> Result<(String<A>, Status), AllocError>
    ensures { IfOk result (λ answer.
        shown_with expect.exit
        (verdict_on expect.rule inputs.now (expanded history.now) (map hart_of harts.now)) (map hart_of harts.now)
        ≡ (string_bytes answer.0, answer.1)) }
{
    let chosen = chosen_harts(alloc, history)?;
    let answer = ends_text(alloc, expect, inputs, &chosen, harts)?;
    Ok(answer)
}
