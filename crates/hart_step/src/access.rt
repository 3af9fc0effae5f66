//! The memory accesses of instructions, with their faults.
ghost use Rattle.std.specs.Prelude.{◌≡◌, ◌+◌, ◌<◌, ◌%◌, ◌^◌, ℕ, None, Some, IfOk, IfErr, OnOk, OnErr, IsTrue};
ghost use Rattle.mem_store.specs.Memory.{number_at};
ghost use Rattle.mem_store.specs.Access.{written, Stores};
ghost use Rattle.hart_reservations.specs.Marks.{ended, word_of};
ghost use Rattle.hart_reservations.specs.Reserve.{marks};
ghost use Rattle.hart_step.specs.Values.{extended, load_size, store_size};
ghost use Rattle.hart_step.specs.Fault.{load_fault, store_fault, load_cause_of, store_cause_of};

use crate::hart::Cause;
use hart_reservations::Reserve;
use isa_table::mnemonic::{LoadOp, StoreOp};
use mem_store::{AccessFault, Store, StoreFault};
use std::alloc::AllocError;

// A byte, sign-extended to a word.
fn extend8(byte: u8) -> u32
    ensures { result ≡ extended LoadOp.Lb byte }
{
    if byte < 0x80 {
        u32::from(byte)
    } else {
        u32::from(byte) + 0xffff_ff00
    }
}

// Two bytes, sign-extended to a word.
fn extend16(half: u16) -> u32
    ensures { result ≡ extended LoadOp.Lh half }
{
    if half < 0x8000 {
        u32::from(half)
    } else {
        u32::from(half) + 0xffff_0000
    }
}

fn load_cause(fault: AccessFault) -> Cause
    ensures { result ≡ load_cause_of fault }
{
    match fault {
        AccessFault::Misaligned => Cause::LoadMisaligned,
        AccessFault::Access => Cause::LoadAccess,
    }
}

/// The value that a load puts into its register, or its fault.
#[inline]
pub fn load<S: Store>(store: &S, op: LoadOp, address: u32) -> Result<u32, Cause>
    ensures ok { OnOk result (load_fault (S.memory store.now) (load_size op) address ≡ None) }
    ensures value { IfOk result (λ value.
        value ≡ extended op (number_at (S.memory store.now).bytes (load_size op) address)) }
    ensures fault { IfErr result (λ cause.
        load_fault (S.memory store.now) (load_size op) address ≡ Some cause) }
{
    let loaded = match op {
        LoadOp::Lb => store.load8(address).map(extend8),
        LoadOp::Lbu => store.load8(address).map(u32::from),
        LoadOp::Lh => store.load16(address).map(extend16),
        LoadOp::Lhu => store.load16(address).map(u32::from),
        LoadOp::Lw => store.load32(address),
    };
    loaded.map_err(load_cause)
}

// Stores the low bytes of a value.
#[inline]
fn store_bytes<S: Store>(
    store: &mut S,
    op: StoreOp,
    address: u32,
    value: u32,
) -> Result<(), StoreFault>
    ensures { Stores S.grows (store_size op) address value
        (S.memory store.old) (S.memory store.new) result }
{
    match op {
        StoreOp::Sb => store.store8(address, (value & 0xff) as u8),
        StoreOp::Sh => store.store16(address, (value & 0xffff) as u16),
        StoreOp::Sw => store.store32(address, value),
    }
}

/// Stores the low bytes of a value for a hart and ends the other harts' reservations of the word,
/// or gives the fault. After a fault, or when out of memory, nothing has changed. A store that
/// faults is never out of memory.
#[inline]
pub fn store_value<S: Store>(
    hart: usize,
    store: &mut S,
    reserve: &mut Reserve,
    op: StoreOp,
    address: u32,
    value: u32,
) -> Result<Result<(), Cause>, AllocError>
    ensures ok { IfOk result (λ stored. OnOk stored (
        (store_fault (S.memory store.old) (store_size op) address ≡ None)
        × (S.memory store.new ≡ written (store_size op) address value (S.memory store.old))
        × (marks reserve.new ≡ ended (marks reserve.old) hart (word_of address)))) }
    ensures fault { IfOk result (λ stored. IfErr stored (λ cause.
        (store_fault (S.memory store.old) (store_size op) address ≡ Some cause)
        × (S.memory store.new ≡ S.memory store.old) × (marks reserve.new ≡ marks reserve.old))) }
    ensures memory { OnErr result (IsTrue S.grows
        × (S.memory store.new ≡ S.memory store.old) × (marks reserve.new ≡ marks reserve.old)) }
    ensures stores { OnErr result (store_fault (S.memory store.old) (store_size op) address ≡ None) }
{
    match store_bytes(store, op, address, value) {
        Ok(()) => {
            reserve.stored_by(hart, address);
            Ok(Ok(()))
        }
        Err(StoreFault::Misaligned) => Ok(Err(Cause::StoreMisaligned)),
        Err(StoreFault::Access) => Ok(Err(Cause::StoreAccess)),
        Err(StoreFault::Memory) => Err(AllocError),
    }
}
