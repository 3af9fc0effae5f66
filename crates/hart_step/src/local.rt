//! The effect of instructions that change only their hart.
ghost use Rattle.std.specs.Prelude.{◌≡◌, ◌%◌, ℕ, Bool, None, Some, IsTrue, if◌then◌else◌};
ghost use Rattle.mem_store.specs.Memory.{Memory};
ghost use Rattle.hart_reservations.specs.Marks.{Marks};
ghost use Rattle.hart_step.specs.Hart.{hart_of, registers_of, put};
ghost use Rattle.hart_step.specs.Fault.{jump_fault};
ghost use Rattle.hart_step.specs.Effect.{site, goes_on, next};
ghost use Rattle.hart_step.specs.Step.{unless, executed};
ghost use Rattle.hart_step.specs.Local.{is_local};

use crate::hart::{Cause, Hart};
use crate::registers::{advance, fault, get, give, give_and_go};
use crate::values::{immediate_result, is_taken, register_result, shift_result};
use isa_table::fields::Reg;
use isa_table::instr::Instr;

// A jump with link. Unprivileged ISA, "Unconditional Jumps".
fn jump(hart: &mut Hart, rd: Reg, target: u32)
    ensures { (m : Memory) (r : Marks) → let s = site (hart_of hart.old) m r in
        site (hart_of hart.new) m r ≡ unless (jump_fault target) s
        (goes_on s (put (registers_of hart.old.registers) rd (next hart.old.pc)) target) }
{
    if target % 4 != 0 {
        fault(hart, Cause::JumpMisaligned);
        return;
    }
    let link = hart.pc.wrapping_add(4);
    give_and_go(hart, rd, link, target);
}

// A branch. Unprivileged ISA, "Conditional Branches".
fn branch(hart: &mut Hart, taken: bool, target: u32)
    ensures { (m : Memory) (r : Marks) → let s = site (hart_of hart.old) m r in
        site (hart_of hart.new) m r ≡ unless (if taken then jump_fault target else None) s
        (goes_on s (registers_of hart.old.registers) (if taken then target else next hart.old.pc)) }
{
    if !taken {
        advance(hart);
    } else if target % 4 != 0 {
        fault(hart, Cause::JumpMisaligned);
    } else {
        hart.pc = target;
    }
}

/// Whether an instruction uses neither memory nor reservations: register operations, jumps,
/// branches and FENCE.
#[inline]
pub fn is_local(instr: Instr) -> bool
    ensures { result ≡ is_local instr }
{
    match instr {
        Instr::Lui { .. }
        | Instr::Auipc { .. }
        | Instr::Jal { .. }
        | Instr::Jalr { .. }
        | Instr::Branch { .. }
        | Instr::Immediate { .. }
        | Instr::Shift { .. }
        | Instr::Register { .. }
        | Instr::Fence { .. } => true,
        Instr::Load { .. }
        | Instr::Store { .. }
        | Instr::Ecall
        | Instr::Ebreak
        | Instr::LoadReserved { .. }
        | Instr::StoreConditional { .. }
        | Instr::Amo { .. } => false,
    }
}

/// A local instruction of a running hart; memory and reservations do not matter.
// Without the attribute the compiler makes it a call with a jump of its own: a step of an addition
// then takes 66 host instructions instead of 53.
#[inline(always)]
pub fn execute_local(hart: &mut Hart, instr: Instr)
    requires { IsTrue (is_local instr) }
    ensures { (m : Memory) (r : Marks) (h : ℕ) (refuse : Bool)
        → site (hart_of hart.new) m r ≡ executed (Some instr) (site (hart_of hart.old) m r) h refuse
        (registers_of hart.old.registers) hart.old.pc }
{
    match instr {
        Instr::Lui { rd, imm } => give(hart, rd, imm.high() << 12),
        Instr::Auipc { rd, imm } => {
            let value = hart.pc.wrapping_add(imm.high() << 12);
            give(hart, rd, value);
        }
        Instr::Jal { rd, offset } => {
            let target = hart.pc.wrapping_add(offset.word());
            jump(hart, rd, target);
        }
        Instr::Jalr { rd, rs1, imm } => {
            let target = get(hart, rs1).wrapping_add(imm.word());
            jump(hart, rd, target - target % 2);
        }
        Instr::Branch {
            op,
            rs1,
            rs2,
            offset,
        } => {
            let taken = is_taken(op, get(hart, rs1), get(hart, rs2));
            let target = hart.pc.wrapping_add(offset.word());
            branch(hart, taken, target);
        }
        Instr::Immediate { op, rd, rs1, imm } => {
            let value = immediate_result(op, get(hart, rs1), imm.word());
            give(hart, rd, value);
        }
        Instr::Shift {
            op,
            rd,
            rs1,
            amount,
        } => {
            let value = shift_result(op, get(hart, rs1), u32::from(amount.count()));
            give(hart, rd, value);
        }
        Instr::Register { op, rd, rs1, rs2 } => {
            let value = register_result(op, get(hart, rs1), get(hart, rs2));
            give(hart, rd, value);
        }
        Instr::Fence { .. } => advance(hart),
        Instr::Load { .. }
        | Instr::Store { .. }
        | Instr::Ecall
        | Instr::Ebreak
        | Instr::LoadReserved { .. }
        | Instr::StoreConditional { .. }
        | Instr::Amo { .. } => unreachable!(),
    }
}
