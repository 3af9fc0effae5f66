//! The lines of choices.
ghost use Rattle.std.specs.Prelude.{◌≡◌, ◌==◌, ◌++◌, OnOk, IfOk, string_bytes};
ghost use Rattle.gdb_monitor.specs.Texts.{pointer_text, schedule_entry, schedule_text};

use debug_session::StepView;
use debug_text::push_step;
use std::alloc::{AllocError, Allocator};

// What stands in front of a choice's line: whether it comes next.
fn pointer_text(is_next: bool) -> &'static str
    ensures { result.now ≡ pointer_text is_next }
{
    if is_next { "> " } else { "  " }
}

// Appends the line of a choice.
fn push_choice<A: Allocator>(
    text: &mut String<A>,
    position: usize,
    view: StepView,
) -> Result<(), AllocError>
    ensures { OnOk result (string_bytes text.new
        ≡ string_bytes text.old ++ schedule_entry position view) }
{
    text.push_str(pointer_text(view.index == position))?;
    push_step(text, view)
}

/// The lines of choices, that of the one that comes next marked.
#[tactic(auto, unfolding(crate::specs::Texts::schedule_text))]
pub fn schedule_text<A: Allocator>(
    alloc: A,
    position: usize,
    views: &[StepView],
) -> Result<String<A>, AllocError>
    ensures { IfOk result (λ text. string_bytes text ≡ schedule_text position views.now) }
{
    let mut text = String::new(alloc);
    'views: for view in views {
        push_choice(&mut text, position, *view)?;
    }
    Ok(text)
}
