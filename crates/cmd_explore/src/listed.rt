//! The text of a list that fails or hangs.
ghost use Rattle.std.specs.Prelude.{◌≡◌, IfOk};
ghost use Rattle.cmd_explore.specs.Explore.{list_shown};

use crate::objects::list_object;
use cmd_json::Form;
use explore_space::Failing;
use sched_text::print_runs;
use std::alloc::{AllocError, Allocator};

/// What is told of a list that fails or hangs, as the answer's word says. Fails when out of memory.
pub(crate) fn list_text<A: Allocator + Copy>(
    alloc: A,
    form: Form,
    answer: &str,
    list: &Failing<A>,
) -> Result<Vec<u8, A>, AllocError>
    ensures { IfOk result (λ text. text.items
        ≡ list_shown form answer.now list.now.turns list.now.choices.items) }
{
    match form {
        Form::Text => {
            let text = print_runs(alloc, &list.choices)?;
            Ok(text.into_bytes())
        }
        Form::Json => list_object(alloc, answer, list),
    }
}
