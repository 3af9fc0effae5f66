//! The texts of comparisons.
ghost use Rattle.std.specs.Prelude.{◌≡◌};
ghost use Rattle.std.specs.Str.{bytes_eq};
ghost use Rattle.property_text.specs.Texts.{comparison_of};

use property_judge::{Comparison, Order};

// Whether a text is a given one.
fn is_text(text: &[u8], other: &str) -> bool
    ensures { result ≡ bytes_eq text.now other.now }
{
    text == other.as_bytes()
}

/// The comparison that a text names. A `u` at its end says that the numbers are unsigned.
pub(crate) fn comparison_of(text: &[u8]) -> Option<Comparison>
    ensures { result ≡ comparison_of text.now }
{
    if is_text(text, "==") {
        return Some(Comparison::Equal);
    }
    if is_text(text, "!=") {
        return Some(Comparison::Unequal);
    }
    if is_text(text, "<") {
        return Some(Comparison::Signed(Order::Less));
    }
    if is_text(text, "<=") {
        return Some(Comparison::Signed(Order::AtMost));
    }
    if is_text(text, ">") {
        return Some(Comparison::Signed(Order::Greater));
    }
    if is_text(text, ">=") {
        return Some(Comparison::Signed(Order::AtLeast));
    }
    if is_text(text, "<u") {
        return Some(Comparison::Unsigned(Order::Less));
    }
    if is_text(text, "<=u") {
        return Some(Comparison::Unsigned(Order::AtMost));
    }
    if is_text(text, ">u") {
        return Some(Comparison::Unsigned(Order::Greater));
    }
    if is_text(text, ">=u") {
        return Some(Comparison::Unsigned(Order::AtLeast));
    }
    None
}
