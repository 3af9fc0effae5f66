//! How harts are printed, and the status of their run.

ghost use Rattle.std.specs.Prelude.{◌≡◌, IfOk, map, string_bytes};
ghost use Rattle.outcome.specs.Ends.{verdict_on};
ghost use Rattle.cmd_run.specs.Run.{shown_with};
ghost use Rattle.hart_step.specs.Hart.{hart_of};

use byte_io::Status;
use hart_step::Hart;
use machine::Choice;
use outcome::{Expect, Outcome, lines_text, verdict_on};
use std::alloc::{AllocError, Allocator};

/// The lines of the harts that a run left and, under a rule, the verdict on them by the run's
/// inputs and choices; and the status.
pub fn ends_text<A: Allocator>(
    alloc: A,
    expect: Expect,
    inputs: &[u32],
    choices: &[Choice],
    harts: &[Hart],
) -> Result<(String<A>, Status), AllocError>
    ensures { IfOk result (λ answer.
        shown_with expect.exit
        (verdict_on expect.rule inputs.now choices.now (map hart_of harts.now)) (map hart_of harts.now)
        ≡ (string_bytes answer.0, answer.1)) }
{
    let verdict = verdict_on(expect.rule, inputs, choices, harts);
    let text = lines_text(alloc, verdict, harts)?;
    let status = expect.status(Outcome::of(verdict, harts));
    Ok((text, status))
}
