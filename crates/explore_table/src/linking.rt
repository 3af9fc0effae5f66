//! Linking rows anew.
ghost use Rattle.std.specs.Prelude.{◌≡◌, ◌<◌, ◌^◌, ℕ, length, slice_index};
ghost use Rattle.explore_table.specs.Links.{IsLinked};

use crate::hash::bucket_of;
use crate::rows::Rows;
use std::alloc::Allocator;

/// Links rows by buckets which lead nowhere as yet.
pub fn link_all<A: Allocator>(rows: &Rows<A>, befores: &mut [u32], heads: &mut [u32])
    requires some { 0 < length heads.old }
    requires none { (b : ℕ) → b < length heads.old → slice_index heads.old b ≡ 0 }
    requires even { length befores.old ≡ length rows.now }
    requires few { length rows.now < 2 ^ 32 }
    ensures { IsLinked rows.now befores.new heads.new }
{
    'rows: for number in 0..rows.len() {
        let bucket = bucket_of(rows.row(number), heads.len());
        befores[number] = heads[bucket];
        heads[bucket] = (number + 1) as u32;
    }
}
