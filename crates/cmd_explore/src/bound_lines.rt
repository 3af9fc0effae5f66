//! The lines of the bounds on harts' own steps.
ghost use Rattle.std.specs.Prelude.{◌≡◌, ◌++◌, IfOk, string_bytes};
ghost use Rattle.cmd_explore.specs.BoundLines.{bound_line, bound_lines};

use explore_space::Bound;
use std::alloc::{AllocError, Allocator};

// Appends the line of a hart.
fn push_bound<A: Allocator>(
    text: &mut String<A>,
    hart: usize,
    bound: Bound,
) -> Result<(), AllocError>
    ensures { IfOk result (λ _. string_bytes text.new ≡ string_bytes text.old ++ bound_line hart bound) }
{
    match bound {
        Bound::After(steps) => writeln!(text, "hart {hart} has stopped after {steps} own steps")?,
        Bound::Never => writeln!(text, "hart {hart} has no bound: it may wait for ever")?,
    }
    Ok(())
}

/// Appends the lines of harts' bounds, in the order of their numbers. Fails when out of memory.
pub(crate) fn push_bounds<A: Allocator>(
    text: &mut String<A>,
    bounds: &[Bound],
) -> Result<(), AllocError>
    ensures { IfOk result (λ _. string_bytes text.new ≡ string_bytes text.old ++ bound_lines 0 bounds.now) }
{
    for (hart, bound) in bounds.iter().enumerate() {
        push_bound(text, hart, *bound)?;
    }
    Ok(())
}
