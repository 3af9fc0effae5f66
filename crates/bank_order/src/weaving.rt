//! Merges logs to one list.
ghost use Rattle.std.specs.Prelude.{◌≡◌, ℕ, ◌++◌, [], drop, IfOk, OnOk};
ghost use Rattle.std.specs.List.{AllByRecursion};
ghost use Rattle.bank_laws.specs.Order.{Rises, Earlier, IsMerged};
ghost use Rattle.bank_order.specs.Weaving.{comes_first, log_of, woven, woven_with};
ghost use Rattle.bank_order.specs.Logs.{segment_logs, borrowed_segments};

use crate::segment::LogSegment;
use std::alloc::{AllocError, Allocator};

// Whether a segment comes before another: by stamp, then by hart number.
fn comes_first(first: &LogSegment, second: &LogSegment) -> bool
    ensures { result ≡ comes_first first.now second.now }
{
    first.stamp < second.stamp || (first.stamp == second.stamp && first.hart < second.hart)
}

// Appends a list's elements from a place on to another list.
fn push_from<'s, A: Allocator>(
    out: &mut Vec<&'s LogSegment, A>,
    segments: &[&'s LogSegment],
    from: usize,
) -> Result<(), AllocError>
    ensures { OnOk result (out.new.items ≡ out.old.items ++ drop from segments.now) }
{
    let mut i = from;
    'segments: while i < segments.len() {
        out.push(segments[i])?;
        i += 1;
    }
    Ok(())
}

// Merges two ordered lists: the first of both heads is taken, until both are empty.
fn weave<'s, A: Allocator>(
    alloc: A,
    first: &[&'s LogSegment],
    second: &[&'s LogSegment],
) -> Result<Vec<&'s LogSegment, A>, AllocError>
    ensures { IfOk result (λ out. borrowed_segments out.items ≡ woven (borrowed_segments first.now) (borrowed_segments second.now)) }
{
    let mut out = Vec::new(alloc);
    let mut i = 0;
    let mut j = 0;
    'segments: while i < first.len() && j < second.len() {
        if comes_first(first[i], second[j]) {
            out.push(first[i])?;
            i += 1;
        } else {
            out.push(second[j])?;
            j += 1;
        }
    }
    push_from(&mut out, first, i)?;
    push_from(&mut out, second, j)?;
    Ok(out)
}

/// The segments of all logs, log h being that of hart h, ordered by stamp, then by hart number. In
/// each log stamps rise.
pub fn in_order<'s, A: Allocator + Copy>(
    alloc: A,
    logs: &[&'s [LogSegment]],
) -> Result<Vec<&'s LogSegment, A>, AllocError>
    requires own { (h : ℕ) → AllByRecursion (λ e. e.hart ≡ h) (log_of (segment_logs logs.now) h) }
    requires rising { (h : ℕ) → Rises Earlier (log_of (segment_logs logs.now) h) }
    ensures { IfOk result (λ out. IsMerged (log_of (segment_logs logs.now)) (borrowed_segments out.items)) }
{
    let out = all_woven(alloc, logs)?;
    Ok(out)
}

// All logs merged, one after another.
#[tactic(auto, unfolding(crate::specs::Weaving::woven_with))]
fn all_woven<'s, A: Allocator + Copy>(
    alloc: A,
    logs: &[&'s [LogSegment]],
) -> Result<Vec<&'s LogSegment, A>, AllocError>
    ensures { IfOk result (λ out. borrowed_segments out.items ≡ woven_with [] (segment_logs logs.now)) }
{
    let mut out = Vec::new(alloc);
    'logs: for log in logs {
        let more = references(alloc, *log)?;
        out = weave(alloc, &out, &more)?;
    }
    Ok(out)
}

fn references<'s, A: Allocator>(
    alloc: A,
    log: &'s [LogSegment],
) -> Result<Vec<&'s LogSegment, A>, AllocError>
    ensures { IfOk result (λ out. borrowed_segments out.items ≡ log.now) }
{
    let mut out = Vec::new(alloc);
    'segments: for segment in log {
        out.push(segment)?;
    }
    Ok(out)
}
