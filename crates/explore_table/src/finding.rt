//! Finding a key among linked rows.
ghost use Rattle.std.specs.Prelude.{◌≡◌, Some, IfSome, IfNone, slice_get};
ghost use Rattle.std.specs.List.{Contains};
ghost use Rattle.explore_table.specs.Links.{IsLinked};

use crate::hash::bucket_of;
use crate::rows::Rows;
use std::alloc::Allocator;

/// The number of a key among rows that are linked by buckets.
pub fn find_linked<A: Allocator>(
    rows: &Rows<A>,
    befores: &[u32],
    heads: &[u32],
    key: &[u32],
) -> Option<usize>
    requires { IsLinked rows.now befores.now heads.now }
    ensures found { IfSome result (λ number. slice_get rows.now number ≡ Some key.now) }
    ensures absent { IfNone result (Contains rows.now key.now → ⊥) }
{
    let mut link = heads[bucket_of(key, heads.len())] as usize;
    'links: while link > 0 {
        if rows.row(link - 1) == key {
            return Some(link - 1);
        }
        link = befores[link - 1] as usize;
    }
    None
}
