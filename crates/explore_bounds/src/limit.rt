//! How many own steps a hart takes at most, if none of its steps comes again.
ghost use Rattle.std.specs.Prelude.{◌≡◌, ℕ, ◌≤◌, Some, IfSome, slice_get};
ghost use Rattle.explore_bounds.specs.Numbers.{AllAtMost, HasOver, IsLimit};

use explore_table::Rows;
use std::alloc::Allocator;

// The largest of a row's numbers and another.
fn most_in(row: &[u32], least: u32) -> u32
    ensures low { least ≤ result }
    ensures most { (i s : ℕ) → slice_get row.now i ≡ Some s → s ≤ result }
{
    let mut most = least;
    'steps: for steps in row {
        most = most.max(*steps);
    }
    most
}

// The largest number of some rows.
fn most_of<A: Allocator>(rows: &Rows<A>) -> u32
    ensures { AllAtMost result rows.now }
{
    let mut most = 0;
    'rows: for number in 0..rows.len() {
        most = most_in(rows.row(number), most);
    }
    most
}

/// As many times the largest number of some rows as there are rows, if that is less than 2^64 - 1.
pub(crate) fn limit_of<A: Allocator>(rows: &Rows<A>) -> Option<u64>
    ensures { IfSome result (λ limit. IsLimit rows.now limit) }
{
    let limit = (rows.len() as u64).checked_mul(u64::from(most_of(rows)))?;
    if limit < u64::MAX { Some(limit) } else { None }
}

/// Whether some number is over a limit.
pub(crate) fn has_over(numbers: &[u64], limit: u64) -> bool
    ensures { HasOver limit numbers.now result }
{
    'numbers: for number in numbers {
        if *number > limit {
            return true;
        }
    }
    false
}
