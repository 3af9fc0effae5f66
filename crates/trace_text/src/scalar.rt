//! Numbers, flags and `null`. RFC 8259, sections 3 and 6.

ghost use Rattle.std.specs.Prelude.{◌≡◌, ◌++◌, decimal, OnOk};
ghost use Rattle.trace_text.specs.Scalars.{flag_text, number_or_null};

use itoa::Buffer;
use std::alloc::{AllocError, Allocator};

/// Appends a number in decimal, without leading zeros.
pub fn push_number<A: Allocator>(out: &mut Vec<u8, A>, number: u64) -> Result<(), AllocError>
    ensures { OnOk result (out.new.items ≡ out.old.items ++ decimal number) }
{
    let mut buffer = Buffer::new();
    out.extend_from_slice(buffer.format(number).as_bytes())
}

/// Appends a number, or `null` where there is none.
#[tactic(auto, unfolding(crate::specs::Scalars::number_or_null))]
pub fn push_number_or_null<A: Allocator>(
    out: &mut Vec<u8, A>,
    number: Option<u32>,
) -> Result<(), AllocError>
    ensures { OnOk result (out.new.items ≡ out.old.items ++ number_or_null number) }
{
    match number {
        None => out.extend_from_slice(b"null"),
        Some(number) => push_number(out, u64::from(number)),
    }
}

/// Appends `true` or `false`.
#[tactic(auto, unfolding(crate::specs::Scalars::flag_text))]
pub fn push_flag<A: Allocator>(out: &mut Vec<u8, A>, flag: bool) -> Result<(), AllocError>
    ensures { OnOk result (out.new.items ≡ out.old.items ++ flag_text flag) }
{
    if flag {
        out.extend_from_slice(b"true")
    } else {
        out.extend_from_slice(b"false")
    }
}
