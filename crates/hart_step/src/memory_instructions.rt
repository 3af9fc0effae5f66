//! The instructions that access memory, each with its fault.
ghost use Rattle.std.specs.Prelude.{◌≡◌, ◌+◌, ◌<◌, ◌%◌, ◌^◌, ◌&&◌, not, true, ℕ, None, Some, Option, OnOk, OnErr, IsTrue};
ghost use Rattle.mem_store.specs.Memory.{number_at};
ghost use Rattle.hart_reservations.specs.Marks.{Marks, with_mark, names, ended};
ghost use Rattle.hart_reservations.specs.Reserve.{marks};
ghost use Rattle.hart_step.specs.Hart.{hart_of, registers_of, put};
ghost use Rattle.hart_step.specs.Values.{wrap, extended, load_size, store_size, amo_result};
ghost use Rattle.hart_step.specs.Fault.{load_fault, store_fault, store_cause_of};
ghost use Rattle.hart_step.specs.Effect.{site, site_of, goes_on, next, stores, conditional, amo};
ghost use Rattle.hart_step.specs.Step.{unless};
ghost use Rattle.hart_reservations.specs.Limit.{most_harts};

use crate::access::{load, store_value};
use crate::hart::{Cause, Hart};
use crate::registers::{advance, fault, get, give};
use crate::values::amo_result;
use hart_reservations::Reserve;
use isa_table::fields::Reg;
use isa_table::mnemonic::{AmoOp, LoadOp, StoreOp};
use mem_store::{AccessFault, Store};
use std::alloc::AllocError;

/// The operands of an instruction with three registers.
#[derive(Clone, Copy)]
pub struct Operands {
    pub rd: Reg,
    pub rs1: Reg,
    pub rs2: Reg,
}

/// A load. Unprivileged ISA, "Load and Store Instructions".
#[inline]
pub fn execute_load<S: Store>(hart: &mut Hart, store: &S, op: LoadOp, rd: Reg, address: u32)
    ensures { (r : Marks) → let m = S.memory store.now in
        let s = site (hart_of hart.old) m r in
        site (hart_of hart.new) m r ≡ unless (load_fault m (load_size op) address) s
        (goes_on s (put (registers_of hart.old.registers) rd
        (extended op (number_at m.bytes (load_size op) address))) (next hart.old.pc)) }
{
    match load(store, op, address) {
        Ok(value) => give(hart, rd, value),
        Err(cause) => fault(hart, cause),
    }
}

/// A store. Unprivileged ISA, "Load and Store Instructions".
#[inline]
pub fn execute_store<S: Store>(
    hart: &mut Hart,
    id: usize,
    store: &mut S,
    reserve: &mut Reserve,
    op: StoreOp,
    address: u32,
    value: u32,
) -> Result<(), AllocError>
    ensures ok { OnOk result (let m = S.memory store.old in
        let s = site_of hart.old m reserve.old in
        site_of hart.new (S.memory store.new) reserve.new
        ≡ unless (store_fault m (store_size op) address) s
        (goes_on (stores s id (store_size op) address value)
        (registers_of hart.old.registers) (next hart.old.pc))) }
    ensures err { OnErr result (IsTrue S.grows × (site_of hart.new (S.memory store.new) reserve.new
        ≡ site_of hart.old (S.memory store.old) reserve.old)) }
    ensures stores { OnErr result (store_fault (S.memory store.old) (store_size op) address ≡ None) }
{
    match store_value(id, store, reserve, op, address, value)? {
        Ok(()) => advance(hart),
        Err(cause) => fault(hart, cause),
    }
    Ok(())
}

/// LR.W: loads a word and reserves it for the hart. Unprivileged ISA,
/// "Load-Reserved/Store-Conditional Instructions".
#[inline]
pub fn load_reserved<S: Store>(
    hart: &mut Hart,
    id: usize,
    store: &S,
    reserve: &mut Reserve,
    rd: Reg,
    address: u32,
)
    requires { id < most_harts }
    ensures { let m = S.memory store.now in
        site_of hart.new m reserve.new
        ≡ unless (load_fault m 4 address) (site_of hart.old m reserve.old)
        (goes_on (site (hart_of hart.old) m (with_mark (marks reserve.old) id address))
        (put (registers_of hart.old.registers) rd (number_at m.bytes 4 address))
        (next hart.old.pc)) }
{
    match load(store, LoadOp::Lw, address) {
        Ok(value) => {
            reserve.set(id, address);
            give(hart, rd, value);
        }
        Err(cause) => fault(hart, cause),
    }
}

// The fault of a store that fails, or of an AMO whose word cannot be loaded.
fn store_cause(fault: AccessFault) -> Cause
    ensures { result ≡ store_cause_of fault }
{
    match fault {
        AccessFault::Misaligned => Cause::StoreMisaligned,
        AccessFault::Access => Cause::StoreAccess,
    }
}

/// SC.W: stores a word if the hart still has it reserved and `refuse` is false; `rd` gets 0, or 1
/// if nothing is stored. Either way the reservation ends, but a fault keeps it. Alignment and the
/// right to write are checked even if nothing is stored. Unprivileged ISA,
/// "Load-Reserved/Store-Conditional Instructions".
#[inline]
pub fn store_conditional<S: Store>(
    hart: &mut Hart,
    id: usize,
    store: &mut S,
    reserve: &mut Reserve,
    operands: Operands,
    refuse: bool,
) -> Result<(), AllocError>
    requires { id < most_harts }
    ensures ok { OnOk result (let x = registers_of hart.old.registers in
        let s = site_of hart.old (S.memory store.old) reserve.old in
        site_of hart.new (S.memory store.new) reserve.new
        ≡ unless (store_fault (S.memory store.old) 4 (x operands.rs1)) s
        (conditional (names (marks reserve.old id) (x operands.rs1) && not refuse) s id x
        hart.old.pc operands.rd (x operands.rs1) (x operands.rs2))) }
    ensures err { OnErr result (IsTrue S.grows × (site_of hart.new (S.memory store.new) reserve.new
        ≡ site_of hart.old (S.memory store.old) reserve.old)) }
    ensures stores { OnErr result (let x = registers_of hart.old.registers in
        (store_fault (S.memory store.old) 4 (x operands.rs1) ≡ None)
        × ((names (marks reserve.old id) (x operands.rs1) && not refuse) ≡ true)) }
{
    let address = get(hart, operands.rs1);
    if refuse || !reserve.holds(id, address) {
        match store.may_store32(address) {
            Ok(()) => {
                reserve.clear(id);
                give(hart, operands.rd, 1);
            }
            Err(why) => fault(hart, store_cause(why)),
        }
        return Ok(());
    }
    let value = get(hart, operands.rs2);
    match store_value(id, store, reserve, StoreOp::Sw, address, value)? {
        Ok(()) => {
            reserve.clear(id);
            give(hart, operands.rd, 0);
        }
        Err(cause) => fault(hart, cause),
    }
    Ok(())
}

/// An AMO: `rd` gets the old word, memory the operation's result, with no step of another hart
/// between. Unprivileged ISA, "Atomic Memory Operations".
#[inline]
pub fn execute_amo<S: Store>(
    hart: &mut Hart,
    id: usize,
    store: &mut S,
    reserve: &mut Reserve,
    op: AmoOp,
    operands: Operands,
) -> Result<(), AllocError>
    ensures ok { OnOk result (let x = registers_of hart.old.registers in
        let s = site_of hart.old (S.memory store.old) reserve.old in
        site_of hart.new (S.memory store.new) reserve.new
        ≡ unless (store_fault (S.memory store.old) 4 (x operands.rs1)) s
        (amo s id x hart.old.pc operands.rd (x operands.rs1)
        (λ old. amo_result op old (x operands.rs2)))) }
    ensures err { OnErr result (IsTrue S.grows × (site_of hart.new (S.memory store.new) reserve.new
        ≡ site_of hart.old (S.memory store.old) reserve.old)) }
    ensures stores { OnErr result
        (store_fault (S.memory store.old) 4 (registers_of hart.old.registers operands.rs1) ≡ None) }
{
    let address = get(hart, operands.rs1);
    let old = match store.load32(address) {
        Ok(old) => old,
        Err(why) => {
            fault(hart, store_cause(why));
            return Ok(());
        }
    };
    let value = amo_result(op, old, get(hart, operands.rs2));
    match store_value(id, store, reserve, StoreOp::Sw, address, value)? {
        Ok(()) => give(hart, operands.rd, old),
        Err(cause) => fault(hart, cause),
    }
    Ok(())
}
