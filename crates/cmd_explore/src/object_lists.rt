//! The arrays of an answer that holds of every schedule.

ghost use Rattle.std.specs.Prelude.{◌≡◌, ◌++◌, ◌∷◌, [], codes, decimal, map, OnOk};
ghost use Rattle.cmd_explore.specs.Objects.{bound_value, end_object, returned_object};
ghost use Rattle.explore_space.specs.Ends.{end_of};
ghost use Rattle.trace_text.specs.Composites.{array, member, more_elements};

use cmd_json::{push_counts, push_next_number, push_number_member};
use explore_space::{Bound, Returned, RunEnd};
use std::alloc::{AllocError, Allocator};
use trace_text::push_number;

// Appends what a hart returned.
#[tactic(auto, unfolding(crate::specs::Objects::returned_object))]
fn push_one<A: Allocator>(out: &mut Vec<u8, A>, one: &Returned) -> Result<(), AllocError>
    ensures { OnOk result (out.new.items ≡ out.old.items ++ returned_object one.now) }
{
    out.push(b'{')?;
    push_number_member(out, "a0", u64::from(one.a0))?;
    push_next_number(out, "a1", u64::from(one.a1))?;
    out.extend_from_slice(b"}")
}

// Appends what harts returned behind a first, each behind a comma, and the closing bracket.
fn push_more_returned<A: Allocator>(
    out: &mut Vec<u8, A>,
    returned: &[Returned],
) -> Result<(), AllocError>
    ensures { OnOk result (out.new.items
        ≡ out.old.items ++ more_elements (map returned_object returned.now)) }
{
    'harts: for one in returned {
        out.push(b',')?;
        push_one(out, one)?;
    }
    out.push(b']')?;
    Ok(())
}

// Appends the array of what harts returned.
fn push_array<A: Allocator>(out: &mut Vec<u8, A>, returned: &[Returned]) -> Result<(), AllocError>
    ensures { OnOk result (out.new.items
        ≡ out.old.items ++ array (map returned_object returned.now)) }
{
    let [first, rest @ ..] = returned else {
        return out.extend_from_slice(b"[]");
    };
    out.push(b'[')?;
    push_one(out, first)?;
    push_more_returned(out, rest)
}

// Appends a comma, what harts returned, and the closing brace.
#[tactic(auto, unfolding(trace_text::specs::Composites::member))]
fn push_returned<A: Allocator>(
    out: &mut Vec<u8, A>,
    returned: &[Returned],
) -> Result<(), AllocError>
    ensures { OnOk result (out.new.items ≡ out.old.items
        ++ 44 ∷ (member (codes "returned") (array (map returned_object returned.now)) ++ 125 ∷ [])) }
{
    out.extend_from_slice(b",\"returned\":")?;
    push_array(out, returned)?;
    out.extend_from_slice(b"}")
}

// Appends an end.
#[tactic(auto, unfolding(crate::specs::Objects::end_object))]
fn push_end<A: Allocator>(out: &mut Vec<u8, A>, end: &RunEnd<A>) -> Result<(), AllocError>
    ensures { OnOk result (out.new.items ≡ out.old.items ++ end_object (end_of end.now)) }
{
    out.push(b'{')?;
    push_counts(out, end.outcome)?;
    push_returned(out, &end.returned)
}

// Appends ends behind a first, each behind a comma, and the closing bracket.
fn push_more_ends<A: Allocator>(out: &mut Vec<u8, A>, ends: &[RunEnd<A>]) -> Result<(), AllocError>
    ensures { OnOk result (out.new.items
        ≡ out.old.items ++ more_elements (map end_object (map end_of ends.now))) }
{
    'ends: for end in ends {
        out.push(b',')?;
        push_end(out, end)?;
    }
    out.push(b']')?;
    Ok(())
}

/// Appends the array of ends.
pub(crate) fn push_ends<A: Allocator>(
    out: &mut Vec<u8, A>,
    ends: &[RunEnd<A>],
) -> Result<(), AllocError>
    ensures { OnOk result (out.new.items
        ≡ out.old.items ++ array (map end_object (map end_of ends.now))) }
{
    let [first, rest @ ..] = ends else {
        return out.extend_from_slice(b"[]");
    };
    out.push(b'[')?;
    push_end(out, first)?;
    push_more_ends(out, rest)
}

// Appends a hart's bound.
#[tactic(auto, unfolding(crate::specs::Objects::bound_value))]
fn push_bound<A: Allocator>(out: &mut Vec<u8, A>, bound: Bound) -> Result<(), AllocError>
    ensures { OnOk result (out.new.items ≡ out.old.items ++ bound_value bound) }
{
    match bound {
        Bound::After(steps) => push_number(out, steps),
        Bound::Never => out.extend_from_slice(b"null"),
    }
}

// Appends bounds behind a first, each behind a comma, and the closing bracket.
fn push_more_bounds<A: Allocator>(out: &mut Vec<u8, A>, bounds: &[Bound]) -> Result<(), AllocError>
    ensures { OnOk result (out.new.items
        ≡ out.old.items ++ more_elements (map bound_value bounds.now)) }
{
    'bounds: for bound in bounds {
        out.push(b',')?;
        push_bound(out, *bound)?;
    }
    out.push(b']')?;
    Ok(())
}

/// Appends the array of bounds.
pub(crate) fn push_bounds<A: Allocator>(
    out: &mut Vec<u8, A>,
    bounds: &[Bound],
) -> Result<(), AllocError>
    ensures { OnOk result (out.new.items ≡ out.old.items ++ array (map bound_value bounds.now)) }
{
    let [first, rest @ ..] = bounds else {
        return out.extend_from_slice(b"[]");
    };
    out.push(b'[')?;
    push_bound(out, *first)?;
    push_more_bounds(out, rest)
}
