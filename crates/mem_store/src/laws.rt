//! Law of each memory that can be copied.
ghost use Rattle.std.specs.Prelude.{◌≡◌, IfOk};
ghost use Rattle.mem_store.specs.Access.{Stores};

use crate::from_image::FromImage;
use crate::store::StoreFault;
use std::alloc::{AllocError, Allocator};

/// A copy does not change with its original: a copy taken before a store has the bytes from before
/// it.
pub fn copy_before_store<A: Allocator, S: FromImage<A>>(
    alloc: A,
    store: &mut S,
    address: u32,
    value: u32,
) -> Result<(S, Result<(), StoreFault>), AllocError>
    ensures copied { IfOk result (λ r. S.memory r.0 ≡ S.memory store.old) }
    ensures stored { IfOk result (λ r.
        Stores S.grows 4 address value (S.memory store.old) (S.memory store.new) r.1) }
{
    let copy = store.copy(alloc)?;
    let stored = store.store32(address, value);
    Ok((copy, stored))
}
