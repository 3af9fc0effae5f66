//! The choices of the run that matching logs are.

ghost use Rattle.std.specs.Prelude.{◌≡◌, ℕ, ◌++◌, OnOk, IfOk};
ghost use Rattle.std.specs.List.{AllByRecursion};
ghost use Rattle.bank_laws.specs.Order.{Rises, Earlier};
ghost use Rattle.bank_laws.specs.Merged.{segment_choices};
ghost use Rattle.bank_order.specs.Weaving.{log_of};
ghost use Rattle.bank_order.specs.Logs.{segment_logs, borrowed_segments};
ghost use Rattle.bank_order.specs.Merged.{plain_steps, choices_of_one, IsMergeOf, LeadsToLogged};

use crate::{LogSegment, in_order};
use machine::Choice;
use std::alloc::{AllocError, Allocator};

/// The choices of the segments of all harts, log h being that of hart h, in the order of their
/// stamps. In each log stamps rise.
///
/// If the same accesses are in the logs of a program's banks, the run of these choices ends as the
/// logs do.
pub fn choices_in_order<A: Allocator + Copy>(
    alloc: A,
    logs: &[&[LogSegment]],
) -> Result<Vec<Choice, A>, AllocError>
    requires own { (h : ℕ) → AllByRecursion (λ e. e.hart ≡ h) (log_of (segment_logs logs.now) h) }
    requires rising { (h : ℕ) → Rises Earlier (log_of (segment_logs logs.now) h) }
    ensures merged { IfOk result (λ choices. IsMergeOf (segment_logs logs.now) choices.items) }
    ensures leads { IfOk result (λ choices. LeadsToLogged (segment_logs logs.now) choices.items) }
{
    let segments = in_order(alloc, logs)?;
    let choices = choices_of(alloc, &segments)?;
    Ok(choices)
}

// The choices of segments, one after another.
fn choices_of<A: Allocator>(
    alloc: A,
    segments: &[&LogSegment],
) -> Result<Vec<Choice, A>, AllocError>
    ensures { IfOk result (λ choices. choices.items ≡ segment_choices (borrowed_segments segments.now)) }
{
    let mut choices = Vec::new(alloc);
    'segments: for segment in segments {
        push_choices(&mut choices, segment)?;
    }
    Ok(choices)
}

// Appends the choices of a segment.
fn push_choices<A: Allocator>(
    choices: &mut Vec<Choice, A>,
    segment: &LogSegment,
) -> Result<(), AllocError>
    ensures { OnOk result (choices.new.items ≡ choices.old.items ++ choices_of_one segment.now) }
{
    push_plain(choices, segment.hart, segment.local)?;
    choices.push(Choice {
        hart: segment.hart,
        refuse: segment.refuse,
    })?;
    Ok(())
}

// Appends `count` plain choices of a hart.
#[tactic(auto, using(crate::proofs::ChoiceLemmas::push_more))]
fn push_plain<A: Allocator>(
    choices: &mut Vec<Choice, A>,
    hart: u32,
    count: u32,
) -> Result<(), AllocError>
    ensures { OnOk result (choices.new.items ≡ choices.old.items ++ plain_steps hart count) }
{
    'choices: for _ in 0..count {
        choices.push(Choice {
            hart,
            refuse: false,
        })?;
    }
    Ok(())
}
