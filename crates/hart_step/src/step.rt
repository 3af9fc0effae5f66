//! One instruction, and one step.
ghost use Rattle.std.specs.Prelude.{◌≡◌, ◌+◌, ◌*◌, ◌<◌, ◌%◌, ◌^◌, ℕ, None, Some, Option, OnOk, OnErr, IsTrue, if◌then◌else◌};
ghost use Rattle.mem_store.specs.Memory.{Memory};
ghost use Rattle.hart_reservations.specs.Marks.{Marks};
ghost use Rattle.hart_reservations.specs.Reserve.{marks};
ghost use Rattle.hart_step.specs.Hart.{hart_of, registers_of, put};
ghost use Rattle.hart_step.specs.Fault.{jump_fault, call_fault, fetch_cause_of};
ghost use Rattle.hart_step.specs.Effect.{site, site_of, goes_on, next, exits};
ghost use Rattle.hart_step.specs.Step.{unless, executed, stepped};
ghost use Rattle.hart_step.specs.Wanting.{DoesStore, StepStores};
ghost use Rattle.hart_reservations.specs.Limit.{most_harts};
ghost use Rattle.hart_step.specs.declared.hart.HartState.TheVariants.{Running};

use crate::data_access::effective_address;
use crate::hart::{Cause, Hart, HartState};
use crate::local::execute_local;
use crate::memory_instructions::{
    Operands, execute_amo, execute_load, execute_store, load_reserved, store_conditional,
};
use crate::registers::{fault, get};
use hart_reservations::Reserve;
use isa_table::instr::Instr;
use mem_store::{FetchFault, Store};
use std::alloc::AllocError;

// The register of the exit call's number, `a7`.
const CALL_NUMBER: usize = 17;

// The register of the exit status, `a0`.
const CALL_STATUS: usize = 10;

// The number of the exit call.
const EXIT: u32 = 93;

// ECALL: the exit call, or a fault.
fn environment_call(hart: &mut Hart)
    ensures { (m : Memory) (r : Marks) → let s = site (hart_of hart.old) m r in
        site (hart_of hart.new) m r ≡ unless (call_fault (registers_of hart.old.registers 17)) s
        (exits s (registers_of hart.old.registers 10)) }
{
    hart.state = if hart.registers[CALL_NUMBER] == EXIT {
        HartState::Exited(hart.registers[CALL_STATUS])
    } else {
        HartState::Faulted(Cause::BadCall)
    };
}

// One instruction of a running hart: its local half, or its effect on memory and reservations.
// Fails only when out of memory; then nothing has changed.
#[inline]
fn execute<S: Store>(
    hart: &mut Hart,
    id: usize,
    store: &mut S,
    reserve: &mut Reserve,
    refuse: bool,
    instr: Instr,
) -> Result<(), AllocError>
    requires { id < most_harts }
    ensures ok { OnOk result (
        let s = site_of hart.old (S.memory store.old) reserve.old in
        site_of hart.new (S.memory store.new) reserve.new
        ≡ executed (Some instr) s id refuse (registers_of hart.old.registers) hart.old.pc) }
    ensures err { OnErr result (IsTrue S.grows × (site_of hart.new (S.memory store.new) reserve.new
        ≡ site_of hart.old (S.memory store.old) reserve.old)) }
    ensures stores { OnErr result (DoesStore instr (site_of hart.old (S.memory store.old) reserve.old)
        id refuse (registers_of hart.old.registers)) }
{
    match instr {
        Instr::Load { op, rd, rs1, imm } => {
            let address = effective_address(hart, rs1, imm);
            execute_load(hart, store, op, rd, address);
        }
        Instr::Store { op, rs1, rs2, imm } => {
            let address = effective_address(hart, rs1, imm);
            let value = get(hart, rs2);
            return execute_store(hart, id, store, reserve, op, address, value);
        }
        Instr::Ecall => environment_call(hart),
        Instr::Ebreak => fault(hart, Cause::Break),
        Instr::LoadReserved { rd, rs1, .. } => {
            let address = get(hart, rs1);
            load_reserved(hart, id, store, reserve, rd, address);
        }
        Instr::StoreConditional { rd, rs1, rs2, .. } => {
            return store_conditional(hart, id, store, reserve, Operands { rd, rs1, rs2 }, refuse);
        }
        Instr::Amo {
            op,
            rd,
            rs1,
            rs2,
            ..
        } => {
            return execute_amo(hart, id, store, reserve, op, Operands { rd, rs1, rs2 });
        }
        Instr::Lui { .. }
        | Instr::Auipc { .. }
        | Instr::Jal { .. }
        | Instr::Jalr { .. }
        | Instr::Branch { .. }
        | Instr::Immediate { .. }
        | Instr::Shift { .. }
        | Instr::Register { .. }
        | Instr::Fence { .. } => execute_local(hart, instr),
    }
    Ok(())
}

// The fault of a hart at an address without an instruction.
fn fetch_cause(fault: FetchFault) -> Cause
    ensures { result ≡ fetch_cause_of fault }
{
    match fault {
        FetchFault::Access => Cause::FetchAccess,
        FetchFault::Illegal => Cause::Illegal,
    }
}

// A step of a running hart: the instruction at its `pc`, or the fault if there is none.
#[inline]
fn running_step<S: Store>(
    hart: &mut Hart,
    id: usize,
    store: &mut S,
    reserve: &mut Reserve,
    refuse: bool,
) -> Result<(), AllocError>
    requires id { id < most_harts }
    requires runs { hart.old.state ≡ Running }
    ensures ok { OnOk result (site_of hart.new (S.memory store.new) reserve.new
        ≡ stepped id refuse (site_of hart.old (S.memory store.old) reserve.old)) }
    ensures err { OnErr result (IsTrue S.grows × (site_of hart.new (S.memory store.new) reserve.new
        ≡ site_of hart.old (S.memory store.old) reserve.old)) }
    ensures stores { OnErr result
        (StepStores id refuse (site_of hart.old (S.memory store.old) reserve.old)) }
{
    match store.instruction(hart.pc) {
        Ok(instr) => execute(hart, id, store, reserve, refuse, instr),
        Err(why) => {
            fault(hart, fetch_cause(why));
            Ok(())
        }
    }
}

/// One event of the machine: a step of hart `id` over the memory and the reservations that all
/// harts share. A hart that has stopped changes nothing. If `refuse` holds, a store-conditional
/// fails.
///
/// Fails only when out of memory; then nothing has changed.
#[tactic(auto, unfolding(crate::specs::Step::stepped))]
pub fn step_hart<S: Store>(
    hart: &mut Hart,
    id: usize,
    store: &mut S,
    reserve: &mut Reserve,
    refuse: bool,
) -> Result<(), AllocError>
    requires { id < most_harts }
    ensures ok { OnOk result (site_of hart.new (S.memory store.new) reserve.new
        ≡ stepped id refuse (site_of hart.old (S.memory store.old) reserve.old)) }
    ensures err { OnErr result (IsTrue S.grows × (site_of hart.new (S.memory store.new) reserve.new
        ≡ site_of hart.old (S.memory store.old) reserve.old)) }
    // Memory is allocated only for a store: the hart runs, its word is a store, an AMO, or a
    // store-conditional that succeeds, and nothing faults.
    ensures stores { OnErr result
        (StepStores id refuse (site_of hart.old (S.memory store.old) reserve.old)) }
{
    match hart.state {
        HartState::Running => running_step(hart, id, store, reserve, refuse),
        HartState::Exited(_) | HartState::Faulted(_) => Ok(()),
    }
}
