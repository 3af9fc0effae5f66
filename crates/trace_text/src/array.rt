//! Arrays. RFC 8259, section 5.

ghost use Rattle.std.specs.Prelude.{◌≡◌, ◌++◌, decimal, map, OnOk};
ghost use Rattle.trace_text.specs.Composites.{array, more_elements};

use crate::scalar::push_number;
use std::alloc::{AllocError, Allocator};

// Appends elements behind a first, each behind a comma, and the closing bracket.
fn push_more<A: Allocator>(out: &mut Vec<u8, A>, numbers: &[u32]) -> Result<(), AllocError>
    ensures { OnOk result (out.new.items ≡ out.old.items ++ more_elements (map decimal numbers.now)) }
{
    'numbers: for number in numbers {
        out.push(b',')?;
        push_number(out, u64::from(*number))?;
    }
    out.push(b']')?;
    Ok(())
}

/// Appends an array of numbers.
pub fn push_numbers<A: Allocator>(out: &mut Vec<u8, A>, numbers: &[u32]) -> Result<(), AllocError>
    ensures { OnOk result (out.new.items ≡ out.old.items ++ array (map decimal numbers.now)) }
{
    let [first, rest @ ..] = numbers else {
        return out.extend_from_slice(b"[]");
    };
    out.push(b'[')?;
    push_number(out, u64::from(*first))?;
    push_more(out, rest)
}
