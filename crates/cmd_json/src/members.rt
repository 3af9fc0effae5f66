//! Members of objects. RFC 8259, section 4.

ghost use Rattle.std.specs.Prelude.{◌≡◌, ◌++◌, ◌∷◌, [], decimal, OnOk};
ghost use Rattle.json.specs.Print.{quoted};
ghost use Rattle.trace_text.specs.Composites.{member};
ghost use Rattle.trace_text.specs.Scalars.{number_or_null};
ghost use Rattle.trace_text.specs.Values.{name_value};

use std::alloc::{AllocError, Allocator};
use trace_text::{push_number, push_string};

/// Appends a member's name, which has nothing to escape, between quotes, and the colon behind it.
pub fn push_key<A: Allocator>(out: &mut Vec<u8, A>, name: &str) -> Result<(), AllocError>
    ensures { OnOk result (out.new.items ≡ out.old.items ++ 34 ∷ (name.now ++ 34 ∷ 58 ∷ [])) }
{
    out.push(b'"')?;
    out.extend_from_slice(name.as_bytes())?;
    out.extend_from_slice(b"\":")
}

/// Appends a name, which has nothing to escape, between quotes.
pub fn push_name<A: Allocator>(out: &mut Vec<u8, A>, name: &str) -> Result<(), AllocError>
    ensures { OnOk result (out.new.items ≡ out.old.items ++ name_value name.now) }
{
    out.push(b'"')?;
    out.extend_from_slice(name.as_bytes())?;
    out.extend_from_slice(b"\"")
}

/// Appends a member whose value is a number.
#[tactic(auto, unfolding(trace_text::specs::Composites::member))]
pub fn push_number_member<A: Allocator>(
    out: &mut Vec<u8, A>,
    name: &str,
    number: u64,
) -> Result<(), AllocError>
    ensures { OnOk result (out.new.items ≡ out.old.items ++ member name.now (decimal number)) }
{
    push_key(out, name)?;
    push_number(out, number)
}

/// Appends a member whose value is a name.
#[tactic(auto, unfolding(trace_text::specs::Composites::member))]
pub fn push_name_member<A: Allocator>(
    out: &mut Vec<u8, A>,
    name: &str,
    value: &str,
) -> Result<(), AllocError>
    ensures { OnOk result (out.new.items ≡ out.old.items ++ member name.now (name_value value.now)) }
{
    push_key(out, name)?;
    push_name(out, value)
}

/// Appends a comma, and then a member whose value is a number.
pub fn push_next_number<A: Allocator>(
    out: &mut Vec<u8, A>,
    name: &str,
    number: u64,
) -> Result<(), AllocError>
    ensures { OnOk result (out.new.items ≡ out.old.items ++ 44 ∷ member name.now (decimal number)) }
{
    out.push(b',')?;
    push_number_member(out, name, number)
}

// Appends a number, or `null` where there is none.
#[tactic(auto, unfolding(trace_text::specs::Scalars::number_or_null))]
fn push_count<A: Allocator>(out: &mut Vec<u8, A>, count: Option<usize>) -> Result<(), AllocError>
    ensures { OnOk result (out.new.items ≡ out.old.items ++ number_or_null count) }
{
    match count {
        None => out.extend_from_slice(b"null"),
        Some(count) => push_number(out, count as u64),
    }
}

/// Appends a member whose value is a number that may be absent.
#[tactic(auto, unfolding(trace_text::specs::Composites::member))]
pub fn push_count_member<A: Allocator>(
    out: &mut Vec<u8, A>,
    name: &str,
    count: Option<usize>,
) -> Result<(), AllocError>
    ensures { OnOk result (out.new.items ≡ out.old.items ++ member name.now (number_or_null count)) }
{
    push_key(out, name)?;
    push_count(out, count)
}

/// Appends a member whose value is a string.
#[tactic(auto, unfolding(trace_text::specs::Composites::member))]
pub fn push_string_member<A: Allocator>(
    out: &mut Vec<u8, A>,
    name: &str,
    text: &str,
) -> Result<(), AllocError>
    ensures { OnOk result (out.new.items ≡ out.old.items ++ member name.now (quoted text.now)) }
{
    push_key(out, name)?;
    push_string(out, text)
}
