//! The words that are watched.
ghost use Rattle.std.specs.Prelude.{◌≡◌, ◌%◌, All};

use std::alloc::Allocator;
use std::collections::BTreeSet;

/// The words that are watched, by the addresses of their first bytes.
#[derive(Drop)]
pub struct Watches<A: Allocator + Copy> {
    pub(crate) changes: BTreeSet<u32, A>,
    pub(crate) reads: BTreeSet<u32, A>,
    pub(crate) accesses: BTreeSet<u32, A>,
    ghost aligned: { All (λ a. a % 4 ≡ 0) changes.keys },
}
