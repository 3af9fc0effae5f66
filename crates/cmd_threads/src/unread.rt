//! The answer of a run whose choices aren't needed.

ghost use Rattle.std.specs.Prelude.{◌≡◌, None, [], IfOk, map, string_bytes};
ghost use Rattle.hart_step.specs.Hart.{hart_of};
ghost use Rattle.cmd_run.specs.Run.{shown_with};

use crate::ThreadsAnswer;
use cmd_run::{Exit, Expect, ends_text};
use hart_step::Hart;
use std::alloc::{AllocError, Allocator};

/// The lines of harts without a rule, without choices and without a history.
pub(crate) fn answer_of_ends<A: Allocator + Copy>(
    alloc: A,
    exit: Exit,
    inputs: &[u32],
    harts: &[Hart],
) -> Result<ThreadsAnswer<A>, AllocError>
    ensures history { IfOk result (λ answer. string_bytes answer.history ≡ []) }
    ensures lines { IfOk result (λ answer.
        shown_with exit None (map hart_of harts.now) ≡ (string_bytes answer.lines, answer.status)) }
{
    let expect = Expect { rule: None, exit };
    let (lines, status) = ends_text(alloc, expect, inputs, &[], harts)?;
    Ok(ThreadsAnswer {
        history: String::new(alloc),
        lines,
        status,
    })
}
