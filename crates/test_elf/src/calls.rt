//! Calls of a memory, for any implementation, each with its expected result.

use image::ElfFault;
use mem_store::{AccessFault, FromImage, Store, StoreFault};
use std::alloc::Global;
use test_images::{Part, checked_image};

/// A memory of segments.
pub(crate) fn store_of<S: FromImage<Global>>(alloc: Global, parts: &[Part]) -> Result<S, ElfFault> {
    let image = checked_image(alloc, 0, parts)?;
    S::from_image(alloc, &image).map_err(|_| ElfFault::Memory)
}

/// A call: the address, the value to store there, and the result.
pub(crate) enum Call {
    Load8(u32, Result<u8, AccessFault>),
    Load16(u32, Result<u16, AccessFault>),
    Load32(u32, Result<u32, AccessFault>),
    Fetch(u32, Option<u32>),
    Peek(u32, Option<u8>),
    MayStore32(u32, Result<(), AccessFault>),
    Store8(u32, u8, Result<(), StoreFault>),
    Store16(u32, u16, Result<(), StoreFault>),
    Store32(u32, u32, Result<(), StoreFault>),
}

// Makes a call; returns whether it gives its result.
fn is_answered<S: Store>(store: &mut S, call: &Call) -> bool {
    match call {
        Call::Load8(address, wanted) => store.load8(*address) == *wanted,
        Call::Load16(address, wanted) => store.load16(*address) == *wanted,
        Call::Load32(address, wanted) => store.load32(*address) == *wanted,
        Call::Fetch(address, wanted) => store.fetch(*address) == *wanted,
        Call::Peek(address, wanted) => store.peek(*address) == *wanted,
        Call::MayStore32(address, wanted) => store.may_store32(*address) == *wanted,
        Call::Store8(address, value, wanted) => store.store8(*address, *value) == *wanted,
        Call::Store16(address, value, wanted) => store.store16(*address, *value) == *wanted,
        Call::Store32(address, value, wanted) => store.store32(*address, *value) == *wanted,
    }
}

// Makes calls in order, up to the first that does not give its result; returns the number that do.
fn count_answered<S: Store>(store: &mut S, calls: &[Call]) -> usize {
    for (number, call) in calls.iter().enumerate() {
        if !is_answered(store, call) {
            return number;
        }
    }
    calls.len()
}

/// The number of calls on a memory of segments that give their results, up to the first that does
/// not.
pub(crate) fn count_on<S: FromImage<Global>>(
    alloc: Global,
    parts: &[Part],
    calls: &[Call],
) -> Result<usize, ElfFault> {
    let mut store: S = store_of(alloc, parts)?;
    Ok(count_answered(&mut store, calls))
}

/// Flags of a segment at 0 that begins with 5, and the accesses that they allow there.
pub(crate) struct Grants {
    pub(crate) flags: u32,
    pub(crate) loads: bool,
    pub(crate) fetches: bool,
    pub(crate) stores: bool,
}

/// A load needs any right, a fetch 1, a store 2.
#[rattlefmt::skip]
pub(crate) const GRANTS: [Grants; 4] = [
    Grants { flags: 0, loads: false, fetches: false, stores: false },
    Grants { flags: 1, loads: true, fetches: true, stores: false },
    Grants { flags: 2, loads: true, fetches: false, stores: true },
    Grants { flags: 4, loads: true, fetches: false, stores: false },
];

// Whether a memory allows the accesses of a row at 0. An allowed store is made.
fn has_grants<S: Store>(store: &mut S, row: &Grants) -> bool {
    store.load32(0).is_ok() == row.loads
        && store.fetch(0).is_some() == row.fetches
        && store.may_store32(0).is_ok() == row.stores
        && store.store32(0, 6).is_ok() == row.stores
        && store.peek(0) == Some(if row.stores { 6 } else { 5 })
}

/// Whether a memory of one segment with a row's flags allows the row's accesses.
pub(crate) fn is_granted<S: FromImage<Global>>(
    alloc: Global,
    row: &Grants,
) -> Result<bool, ElfFault> {
    let part = Part {
        base: 0,
        size: 8,
        flags: row.flags,
        bytes: &[5],
    };
    let mut store: S = store_of(alloc, &[part])?;
    Ok(has_grants(&mut store, row))
}
