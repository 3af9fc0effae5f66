//! The plan of refused store-conditionals of a run.
ghost use Rattle.std.specs.Prelude.{◌≡◌};
ghost use Rattle.thread_gate.specs.Plan.{is_planned};

use std::alloc::Allocator;
use std::collections::BTreeSet;

/// Pairs of a hart and the number of one of its choices, from 0. If that choice is the step after a
/// segment's local ones, its store-conditional is refused. A pair may name a hart that does not
/// exist, or a choice that is never made.
pub type Plan<A> = BTreeSet<(u32, u32), A>;

/// Whether a plan contains a hart and the number of its choice.
pub fn is_planned<A: Allocator>(plan: &Plan<A>, hart: u32, number: u32) -> bool
    ensures { result ≡ is_planned plan.now.keys hart number }
{
    plan.contains(&(hart, number))
}
