//! The bytes that a watch and an access have in common.
ghost use Rattle.std.specs.Prelude.{◌≡◌, ◌+◌, ◌^◌, ◌<◌};
ghost use Rattle.gdb_moves.specs.Touches.{common, is_in, is_empty, changed_at, changes};

use crate::watch::Watch;
use hart_step::Access;

/// The addresses from one on and below another; none if they are in the wrong order.
#[derive(Clone, Copy)]
pub struct Span {
    /// The first address.
    pub from: u32,
    /// The address behind the last, at most 2^33 - 2.
    pub to: u64,
}

/// The bytes of a watch that are also an access's.
pub fn common(watch: &Watch, access: Access) -> Span
    ensures { result ≡ common watch.now access }
{
    let watched = watch.address as u64 + watch.length as u64;
    let touched = access.address as u64 + access.size as u64;
    Span {
        from: if watch.address < access.address {
            access.address
        } else {
            watch.address
        },
        to: if watched < touched { watched } else { touched },
    }
}

/// Whether there is no address in a span.
pub fn is_empty(span: Span) -> bool
    ensures { result ≡ is_empty span }
{
    span.from as u64 >= span.to
}

// Whether byte k of the word at an address is in a span and differs.
fn changed_at(span: Span, word: u32, before: [u8; 4], after: [u8; 4], k: usize) -> bool
    requires { k < 4 }
    ensures { result ≡ changed_at span word before after k }
{
    let address = word as u64 + k as u64;
    span.from as u64 <= address && address < span.to && before[k] != after[k]
}

/// Whether a byte of the word at an address is in a span and differs, given the word's bytes before
/// and after.
pub fn changes(span: Span, word: u32, before: [u8; 4], after: [u8; 4]) -> bool
    ensures { result ≡ changes span word before after }
{
    changed_at(span, word, before, after, 0)
        || changed_at(span, word, before, after, 1)
        || changed_at(span, word, before, after, 2)
        || changed_at(span, word, before, after, 3)
}
