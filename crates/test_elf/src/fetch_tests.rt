//! Fetches whose four bytes go on at address 0.

use crate::calls::store_of;
use hart_reservations::Reserve;
use hart_step::{Cause, Hart, HartState, step_hart};
use image::ElfFault;
use mem_flat::FlatStore;
use mem_paged::PageStore;
use mem_store::FromImage;
use std::alloc::Global;
use test_images::Part;

// `addi t0, zero, 1` at an address of which the last segment has the first bytes, and the first
// segment the others.
struct Split {
    pc: u32,
    last: &'static [u8],
    first: &'static [u8],
}

#[rattlefmt::skip]
const SPLITS: [Split; 3] = [
    Split { pc: 0xffff_fffd, last: &[0, 0x93, 0x02, 0x10], first: &[0x00, 0, 0, 0] },
    Split { pc: 0xffff_fffe, last: &[0, 0, 0x93, 0x02], first: &[0x10, 0x00, 0, 0] },
    Split { pc: 0xffff_ffff, last: &[0, 0, 0, 0x93], first: &[0x02, 0x10, 0x00, 0] },
];

fn last_part(split: &Split, flags: u32) -> Part {
    Part {
        base: 0xffff_fffc,
        size: 4,
        flags,
        bytes: split.last,
    }
}

fn first_part(split: &Split, flags: u32) -> Part {
    Part {
        base: 0,
        size: 4,
        flags,
        bytes: split.first,
    }
}

// A hart after one step from an address.
fn stepped<S: FromImage<Global>>(alloc: Global, parts: &[Part], pc: u32) -> Result<Hart, ElfFault> {
    let mut store: S = store_of(alloc, parts)?;
    let mut hart = Hart {
        registers: [0; 32],
        pc,
        state: HartState::Running,
    };
    let mut reserve = Reserve::new();
    step_hart(&mut hart, 0, &mut store, &mut reserve, false).map_err(|_| ElfFault::Memory)?;
    Ok(hart)
}

// Whether a step from a split instruction executes it.
fn is_executed<S: FromImage<Global>>(alloc: Global, split: &Split) -> Result<bool, ElfFault> {
    let parts = [last_part(split, 1), first_part(split, 5)];
    let hart = stepped::<S>(alloc, &parts, split.pc)?;
    Ok(
        hart.state == HartState::Running
            && hart.pc == split.pc.wrapping_add(4)
            && hart.registers[5] == 1,
    )
}

// Whether a step from a split instruction faults where these segments are mapped.
fn is_refused<S: FromImage<Global>>(
    alloc: Global,
    parts: &[Part],
    pc: u32,
) -> Result<bool, ElfFault> {
    let hart = stepped::<S>(alloc, parts, pc)?;
    Ok(hart.state == HartState::Faulted(Cause::FetchAccess) && hart.pc == pc)
}

// Whether each byte of a split instruction needs the right to execute.
fn is_guarded<S: FromImage<Global>>(alloc: Global, split: &Split) -> Result<bool, ElfFault> {
    let last = [last_part(split, 6), first_part(split, 5)];
    let first = [last_part(split, 5), first_part(split, 6)];
    let none = [last_part(split, 5)];
    Ok(
        is_refused::<S>(alloc, &last, split.pc)?
            && is_refused::<S>(alloc, &first, split.pc)?
            && is_refused::<S>(alloc, &none, split.pc)?,
    )
}

// Whether a hart's step is right over memory of a kind.
fn is_right_over<S: FromImage<Global>>(alloc: Global, split: &Split) -> Result<bool, ElfFault> {
    Ok(is_executed::<S>(alloc, split)? && is_guarded::<S>(alloc, split)?)
}

// Whether it is right over memory of each kind.
fn is_right(alloc: Global, split: &Split) -> Result<bool, ElfFault> {
    Ok(
        is_right_over::<FlatStore<Global>>(alloc, split)?
            && is_right_over::<PageStore<Global>>(alloc, split)?,
    )
}

#[test]
fn a_fetch_goes_on_at_address_0_where_each_byte_has_its_right(rt: HostRuntime) {
    for split in &SPLITS {
        assert!(rt; is_right(rt.alloc(), split) == Ok(true), "{}", split.pc);
    }
}
