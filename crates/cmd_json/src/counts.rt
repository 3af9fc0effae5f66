//! How many harts ended in which way.

ghost use Rattle.std.specs.Prelude.{◌≡◌, ◌++◌, ◌∷◌, codes, decimal, OnOk};
ghost use Rattle.cmd_json.specs.Counts.{counts_text};
ghost use Rattle.cmd_json.specs.Verdict.{verdict_value};
ghost use Rattle.trace_text.specs.Composites.{member};

use crate::members::{push_key, push_number_member};
use crate::verdict::push_verdict;
use object_library::Verdict;
use outcome::Outcome;
use std::alloc::{AllocError, Allocator};

// Appends how many harts have exited and have faulted.
fn push_stopped<A: Allocator>(
    out: &mut Vec<u8, A>,
    exited: usize,
    faulted: usize,
) -> Result<(), AllocError>
    ensures { OnOk result (out.new.items ≡ out.old.items
        ++ (member (codes "exited") (decimal exited)
        ++ 44 ∷ member (codes "faulted") (decimal faulted))) }
{
    push_number_member(out, "exited", exited as u64)?;
    out.push(b',')?;
    push_number_member(out, "faulted", faulted as u64)
}

// Appends the verdict.
#[tactic(auto, unfolding(trace_text::specs::Composites::member))]
fn push_judged<A: Allocator>(
    out: &mut Vec<u8, A>,
    verdict: Option<Verdict>,
) -> Result<(), AllocError>
    ensures { OnOk result (out.new.items ≡ out.old.items
        ++ member (codes "verdict") (verdict_value verdict)) }
{
    push_key(out, "verdict")?;
    push_verdict(out, verdict)
}

/// Appends how many harts have exited, have faulted and run, and the verdict: the members of an
/// object, without its braces.
pub fn push_counts<A: Allocator>(out: &mut Vec<u8, A>, outcome: Outcome) -> Result<(), AllocError>
    ensures { OnOk result (out.new.items ≡ out.old.items ++ counts_text outcome) }
{
    push_stopped(out, outcome.exited, outcome.faulted)?;
    out.push(b',')?;
    push_number_member(out, "running", outcome.running as u64)?;
    out.push(b',')?;
    push_judged(out, outcome.verdict)
}
