//! Equality of harts and of code.
ghost use Rattle.std.specs.Prelude.{◌≡◌, MatchBool, length};
ghost use Rattle.hart_step.specs.Hart.{hart_of, registers_of};

use hart_local::Code;
use hart_step::Hart;
use image::Segment;
use std::alloc::Allocator;

// Whether two arrays of one length have the same words: exactly then they are the same registers.
fn is_same_words(ones: &[u32], others: &[u32]) -> bool
    requires { length ones.now ≡ length others.now }
    ensures { MatchBool result (registers_of ones.now ≡ registers_of others.now)
        (registers_of ones.now ≡ registers_of others.now → ⊥) }
{
    *ones == *others
}

/// Whether two harts are equal, word by word.
pub fn is_same_hart(one: &Hart, other: &Hart) -> bool
    ensures { MatchBool result (hart_of one.now ≡ hart_of other.now)
        (hart_of one.now ≡ hart_of other.now → ⊥) }
{
    is_same_words(&one.registers, &other.registers)
        && one.pc == other.pc
        && one.state == other.state
}

// Whether two segments of memory are equal, byte by byte.
fn is_same_segment<A: Allocator, B: Allocator>(one: &Segment<A>, other: &Segment<B>) -> bool
    ensures { MatchBool result (one.now ≡ other.now) (one.now ≡ other.now → ⊥) }
{
    one.base == other.base
        && one.size == other.size
        && one.rights == other.rights
        && one.bytes.as_slice() == other.bytes.as_slice()
}

/// Whether two codes are equal, byte by byte.
pub fn is_same_code<A: Allocator, B: Allocator>(one: &Code<A>, other: &Code<B>) -> bool
    ensures { MatchBool result (one.now ≡ other.now) (one.now ≡ other.now → ⊥) }
{
    let ones = one.segments();
    let others = other.segments();
    if ones.len() != others.len() {
        return false;
    }
    'each: for k in 0..ones.len() {
        if !is_same_segment(&ones[k], &others[k]) {
            return false;
        }
    }
    true
}
