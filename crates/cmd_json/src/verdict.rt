//! The verdict on a run.

ghost use Rattle.std.specs.Prelude.{◌≡◌, ◌++◌, OnOk};
ghost use Rattle.cmd_json.specs.Verdict.{verdict_value};

use object_library::Verdict;
use std::alloc::{AllocError, Allocator};

/// Appends a verdict's word as a string, or `null` where no rule is judged.
#[tactic(auto, unfolding(crate::specs::Verdict::verdict_value))]
pub fn push_verdict<A: Allocator>(
    out: &mut Vec<u8, A>,
    verdict: Option<Verdict>,
) -> Result<(), AllocError>
    ensures { OnOk result (out.new.items ≡ out.old.items ++ verdict_value verdict) }
{
    match verdict {
        None => out.extend_from_slice(b"null"),
        Some(Verdict::Kept) => out.extend_from_slice(b"\"kept\""),
        Some(Verdict::Broken) => out.extend_from_slice(b"\"broken\""),
    }
}
