//! Laws of each memory that can be copied.
ghost use Rattle.std.specs.Prelude.{◌≡◌, IfOk};
ghost use Rattle.mem_store.specs.Access.{Stores};
ghost use Rattle.mem_paged.specs.Number.{width_of, stored_value};

use crate::number::Number;
use mem_store::{FromImage, Store, StoreFault};
use std::alloc::{AllocError, Allocator};

/// Stores a number of any width.
pub fn store_number<S: Store>(store: &mut S, address: u32, number: Number) -> Result<(), StoreFault>
    ensures { Stores S.grows (width_of number) address (stored_value number)
        (S.memory store.old) (S.memory store.new) result }
{
    match number {
        Number::Byte(value) => store.store8(address, value),
        Number::Half(value) => store.store16(address, value),
        Number::Word(value) => store.store32(address, value),
    }
}

/// A copy does not change with its original: it keeps its bytes, whatever is stored into the
/// original.
pub fn store_into_original<A: Allocator, S: FromImage<A>>(
    alloc: A,
    store: &mut S,
    address: u32,
    number: Number,
) -> Result<(S, Result<(), StoreFault>), AllocError>
    ensures copied { IfOk result (λ r. S.memory r.0 ≡ S.memory store.old) }
    ensures stored { IfOk result (λ r. Stores S.grows (width_of number) address (stored_value number)
        (S.memory store.old) (S.memory store.new) r.1) }
{
    let copy = store.copy(alloc)?;
    let stored = store_number(store, address, number);
    Ok((copy, stored))
}

/// An original does not change with its copy: it keeps its bytes, whatever is stored into the copy.
pub fn store_into_copy<A: Allocator, S: FromImage<A>>(
    alloc: A,
    store: &mut S,
    address: u32,
    number: Number,
) -> Result<(S, Result<(), StoreFault>), AllocError>
    ensures kept { S.memory store.new ≡ S.memory store.old }
    ensures stored { IfOk result (λ r. Stores S.grows (width_of number) address (stored_value number)
        (S.memory store.old) (S.memory r.0) r.1) }
{
    let mut copy = store.copy(alloc)?;
    let stored = store_number(&mut copy, address, number);
    Ok((copy, stored))
}
