//! Properties without a clause: that calls succeed, and their results on independent rows.

use crate::calls::{Call, GRANTS, count_on, is_granted, store_of};
use image::ElfFault;
use mem_flat::FlatStore;
use mem_store::{AccessFault, FromImage, Store, StoreFault};
use std::alloc::Global;
use test_images::Part;

type Flat = FlatStore<Global>;

/// Adjacent segments that split the word at 0x1004, the later one first, and a segment at the top.
#[rattlefmt::skip]
const THREE_SEGMENTS: [Part; 3] = [
    Part { base: 0x1006, size: 0x0a, flags: 3, bytes: &[7, 8] },
    Part { base: 0x1000, size: 6, flags: 6, bytes: &[1, 2, 3, 4, 5, 6] },
    Part { base: 0xffff_fff8, size: 8, flags: 7, bytes: &[9] },
];

// The first half of the word at 0x1004 is not executable.
static CROSSING: [Call; 13] = [
    Call::Load32(0x1000, Ok(0x0403_0201)),
    Call::Load32(0x1004, Ok(0x0807_0605)),
    Call::Load16(0x1006, Ok(0x0807)),
    Call::Load32(0x1008, Ok(0)),
    Call::Store32(0x1004, 0xa4a3_a2a1, Ok(())),
    Call::Load8(0x1005, Ok(0xa2)),
    Call::Load8(0x1006, Ok(0xa3)),
    Call::Store16(0x1002, 0xb2b1, Ok(())),
    Call::Store8(0x1008, 0xc1, Ok(())),
    Call::Load32(0x1000, Ok(0xb2b1_0201)),
    Call::Load32(0x1008, Ok(0xc1)),
    Call::Fetch(0x1004, None),
    Call::Fetch(0x1008, Some(0xc1)),
];

#[test]
fn loads_and_stores_cross_adjacent_segments(rt: HostRuntime) -> Result<(), ElfFault> {
    let answered = count_on::<Flat>(rt.alloc(), &THREE_SEGMENTS, &CROSSING)?;
    assert!(rt; answered == CROSSING.len(), "call {answered}");
    Ok(())
}

static MISALIGNED: [Call; 11] = [
    Call::Load32(0x1002, Err(AccessFault::Misaligned)),
    Call::MayStore32(0x1002, Err(AccessFault::Misaligned)),
    Call::Store32(0x1002, 1, Err(StoreFault::Misaligned)),
    Call::Load16(0x1003, Err(AccessFault::Misaligned)),
    Call::Load32(0x2002, Err(AccessFault::Misaligned)),
    Call::MayStore32(0x2002, Err(AccessFault::Misaligned)),
    Call::Store32(0x2002, 1, Err(StoreFault::Misaligned)),
    Call::Load16(0x2003, Err(AccessFault::Misaligned)),
    Call::Load32(0x2000, Err(AccessFault::Access)),
    Call::Store16(0x2000, 1, Err(StoreFault::Access)),
    Call::Peek(0x2000, None),
];

#[test]
fn misaligned_wins_over_a_missing_right(rt: HostRuntime) -> Result<(), ElfFault> {
    let answered = count_on::<Flat>(rt.alloc(), &THREE_SEGMENTS, &MISALIGNED)?;
    assert!(rt; answered == MISALIGNED.len(), "call {answered}");
    Ok(())
}

static AT_THE_LAST_ADDRESS: [Call; 5] = [
    Call::Store32(0xffff_fffc, 0x0102_0304, Ok(())),
    Call::Load8(0xffff_ffff, Ok(1)),
    Call::Fetch(0xffff_fffc, Some(0x0102_0304)),
    Call::Fetch(0xffff_fffd, None),
    Call::Load8(0, Err(AccessFault::Access)),
];

#[test]
fn the_last_address_is_mapped(rt: HostRuntime) -> Result<(), ElfFault> {
    let answered = count_on::<Flat>(rt.alloc(), &THREE_SEGMENTS, &AT_THE_LAST_ADDRESS)?;
    assert!(rt; answered == AT_THE_LAST_ADDRESS.len(), "call {answered}");
    Ok(())
}

#[test]
fn rights_grant_what_they_name(rt: HostRuntime) {
    for row in &GRANTS {
        assert!(rt;
            is_granted::<Flat>(rt.alloc(), row) == Ok(true),
            "{}",
            row.flags
        );
    }
}

// Whether a copy has the bytes from before a store.
fn copy_is_kept(alloc: Global) -> Result<bool, ElfFault> {
    let mut store: Flat = store_of(alloc, &THREE_SEGMENTS)?;
    let copy = store.copy(alloc).map_err(|_| ElfFault::Memory)?;
    Ok(
        store.store32(0x1000, 0) == Ok(())
            && copy.load32(0x1000) == Ok(0x0403_0201)
            && copy.load32(0x1004) == Ok(0x0807_0605),
    )
}

#[test]
fn a_copy_keeps_what_was_there(rt: HostRuntime) {
    assert!(rt; copy_is_kept(rt.alloc()) == Ok(true));
}
