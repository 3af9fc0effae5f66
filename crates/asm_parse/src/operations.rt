//! Instructions with their operands. A wrong shape comes before a name that is no register.
ghost use Rattle.std.specs.Prelude.{◌≡◌, map};
ghost use Rattle.asm_lex.specs.Lexemes.{seen};
ghost use Rattle.asm_statement.specs.Operations as operations;

use crate::names::fence_set_of;
use crate::operands::{
    register_and_address, register_and_memory, register_and_register, register_and_target,
    register_and_upper, registers_and_address, registers_and_immediate, registers_and_number,
    registers_and_register, registers_and_target, without_operands,
};
use crate::shape::{name, name_in_front, register, target, two_names_in_front};
use asm_lex::Lexeme;
use asm_statement::{FaultKind, Immediate, Instruction, Operation, Target, Unary};
use isa_table::{BranchOp, FenceSet, ImmediateOp, Instr, Order, Reg, RegisterOp, ShiftOp};

// `target`, with this link register
#[tactic(auto, unfolding(asm_statement::specs::Operations::jump))]
fn jump<'a>(rd: Reg, lexemes: &[Lexeme<'a>]) -> Result<Instruction<'a>, FaultKind>
    ensures { result ≡ operations.jump rd (map seen lexemes.now) }
{
    let target = target(lexemes).ok_or(FaultKind::Operands)?;
    Ok(Instruction::Jal { rd, target })
}

// `rd, target`, or `target` with ra
#[tactic(auto, unfolding(asm_statement::specs::Operations::jal))]
fn jal<'a>(lexemes: &[Lexeme<'a>]) -> Result<Instruction<'a>, FaultKind>
    ensures { result ≡ operations.jal (map seen lexemes.now) }
{
    if name_in_front(lexemes).is_some() {
        let (rd, target) = register_and_target(lexemes)?;
        return Ok(Instruction::Jal { rd, target });
    }
    jump(Reg::RA, lexemes)
}

// `rs`, with this link register
#[tactic(auto, unfolding(asm_statement::specs::Operations::jump_register))]
fn jump_register<'a>(rd: Reg, lexemes: &[Lexeme<'a>]) -> Result<Instruction<'a>, FaultKind>
    ensures { result ≡ operations.jump_register rd (map seen lexemes.now) }
{
    let rs1 = name(lexemes).ok_or(FaultKind::Operands)?;
    let rs1 = register(rs1)?;
    let imm = Immediate::Number(0);
    Ok(Instruction::Jalr { rd, rs1, imm })
}

// `rd, rs1, imm` or `rd, imm(rs1)`, or `rs1` with ra
#[tactic(auto, unfolding(asm_statement::specs::Operations::jalr))]
fn jalr<'a>(lexemes: &[Lexeme<'a>]) -> Result<Instruction<'a>, FaultKind>
    ensures { result ≡ operations.jalr (map seen lexemes.now) }
{
    if two_names_in_front(lexemes).is_some() {
        let (rd, rs1, imm) = registers_and_immediate(lexemes)?;
        return Ok(Instruction::Jalr { rd, rs1, imm });
    }
    if name_in_front(lexemes).is_some() {
        let (rd, rs1, imm) = register_and_memory(lexemes)?;
        return Ok(Instruction::Jalr { rd, rs1, imm });
    }
    jump_register(Reg::RA, lexemes)
}

// Two sets of accesses, or no operands for all.
#[tactic(auto, unfolding(asm_statement::specs::Operations::fence))]
fn fence(lexemes: &[Lexeme]) -> Result<Instr, FaultKind>
    ensures { result ≡ operations.fence (map seen lexemes.now) }
{
    match lexemes {
        [] => Ok(plain_fence(FenceSet::new(15), FenceSet::new(15))),
        [Lexeme::Name(pred), Lexeme::Comma, Lexeme::Name(succ)] => {
            match (fence_set_of(pred), fence_set_of(succ)) {
                (Some(pred), Some(succ)) => Ok(plain_fence(pred, succ)),
                _ => Err(FaultKind::Operands),
            }
        }
        _ => Err(FaultKind::Operands),
    }
}

fn plain_fence(pred: FenceSet, succ: FenceSet) -> Instr
    ensures { result ≡ operations.plain_fence pred succ }
{
    Instr::Fence {
        mode: FenceSet::new(0),
        pred,
        succ,
        rs1: Reg::ZERO,
        rd: Reg::ZERO,
    }
}

// FENCE.TSO: reads and writes, with fm 8.
fn fence_tso() -> Instr
    ensures { result ≡ operations.fence_tso }
{
    Instr::Fence {
        mode: FenceSet::new(8),
        pred: FenceSet::new(3),
        succ: FenceSet::new(3),
        rs1: Reg::ZERO,
        rd: Reg::ZERO,
    }
}

// A pseudo-instruction of two registers.
fn unary_instruction<'a>(op: Unary, rd: Reg, rs: Reg) -> Instruction<'a>
    ensures { result ≡ operations.unary_instruction op rd rs }
{
    let (op, rs1, imm) = match op {
        Unary::Move => (ImmediateOp::Addi, rs, 0),
        Unary::Not => (ImmediateOp::Xori, rs, -1),
        Unary::IsZero => (ImmediateOp::Sltiu, rs, 1),
        Unary::Negate => return register_instruction(RegisterOp::Sub, rd, Reg::ZERO, rs),
        Unary::IsNotZero => return register_instruction(RegisterOp::Sltu, rd, Reg::ZERO, rs),
        Unary::IsNegative => return register_instruction(RegisterOp::Slt, rd, rs, Reg::ZERO),
        Unary::IsPositive => return register_instruction(RegisterOp::Slt, rd, Reg::ZERO, rs),
    };
    Instruction::Immediate {
        op,
        rd,
        rs1,
        imm: Immediate::Number(imm),
    }
}

fn register_instruction<'a>(op: RegisterOp, rd: Reg, rs1: Reg, rs2: Reg) -> Instruction<'a>
    ensures { result ≡ operations.register_instruction op rd rs1 rs2 }
{
    Instruction::Fixed(Instr::Register { op, rd, rs1, rs2 })
}

// `jalr zero, 0(ra)`
fn return_instruction<'a>() -> Instruction<'a>
    ensures { result ≡ operations.return_instruction }
{
    Instruction::Jalr {
        rd: Reg::ZERO,
        rs1: Reg::RA,
        imm: Immediate::Number(0),
    }
}

// An instruction whose operands need no values.
#[tactic(auto, unfolding(asm_statement::specs::Operations::fixed))]
fn fixed(operation: Operation, lexemes: &[Lexeme]) -> Result<Instr, FaultKind>
    ensures { result ≡ operations.fixed operation (map seen lexemes.now) }
{
    match operation {
        Operation::Register(op) => {
            let (rd, rs1, rs2) = registers_and_register(lexemes)?;
            Ok(Instr::Register { op, rd, rs1, rs2 })
        }
        Operation::Fence => fence(lexemes),
        Operation::FenceTso => without_operands(fence_tso(), lexemes),
        Operation::Ebreak => without_operands(Instr::Ebreak, lexemes),
        Operation::LoadReserved(Order { aq, rl }) => {
            let (rd, rs1) = register_and_address(lexemes)?;
            Ok(Instr::LoadReserved { aq, rl, rd, rs1 })
        }
        Operation::StoreConditional(Order { aq, rl }) => {
            let (rd, rs2, rs1) = registers_and_address(lexemes)?;
            Ok(Instr::StoreConditional {
                aq,
                rl,
                rd,
                rs1,
                rs2,
            })
        }
        Operation::Amo(op, Order { aq, rl }) => {
            let (rd, rs2, rs1) = registers_and_address(lexemes)?;
            Ok(Instr::Amo {
                op,
                aq,
                rl,
                rd,
                rs1,
                rs2,
            })
        }
        _ => without_operands(Instr::Ecall, lexemes),
    }
}

/// The instruction with a name at the front of a statement and the operands after it.
#[tactic(auto, unfolding(asm_statement::specs::Operations::instruction))]
pub fn instruction<'a>(
    operation: Operation,
    lexemes: &[Lexeme<'a>],
) -> Result<Instruction<'a>, FaultKind>
    ensures { result ≡ operations.instruction operation (map seen lexemes.now) }
{
    match operation {
        Operation::Lui => {
            let (rd, imm) = register_and_upper(lexemes)?;
            Ok(Instruction::Lui { rd, imm })
        }
        Operation::Auipc => {
            let (rd, imm) = register_and_upper(lexemes)?;
            Ok(Instruction::Auipc { rd, imm })
        }
        Operation::Jal => jal(lexemes),
        Operation::Jalr => jalr(lexemes),
        Operation::Branch(op) => {
            let (rs1, rs2, target) = registers_and_target(lexemes)?;
            Ok(branch(op, rs1, rs2, target))
        }
        Operation::SwappedBranch(op) => {
            let (rs2, rs1, target) = registers_and_target(lexemes)?;
            Ok(branch(op, rs1, rs2, target))
        }
        Operation::BranchZero(op) => {
            let (rs1, target) = register_and_target(lexemes)?;
            Ok(branch(op, rs1, Reg::ZERO, target))
        }
        Operation::ZeroBranch(op) => {
            let (rs2, target) = register_and_target(lexemes)?;
            Ok(branch(op, Reg::ZERO, rs2, target))
        }
        Operation::Load(op) => {
            let (rd, rs1, imm) = register_and_memory(lexemes)?;
            Ok(Instruction::Load { op, rd, rs1, imm })
        }
        Operation::Store(op) => {
            let (rs2, rs1, imm) = register_and_memory(lexemes)?;
            Ok(Instruction::Store { op, rs1, rs2, imm })
        }
        Operation::Immediate(op) => {
            let (rd, rs1, imm) = registers_and_immediate(lexemes)?;
            Ok(Instruction::Immediate { op, rd, rs1, imm })
        }
        Operation::Shift(op) => {
            let (rd, rs1, amount) = registers_and_number(lexemes)?;
            Ok(shift(op, rd, rs1, amount))
        }
        Operation::Nop => {
            let nop = unary_instruction(Unary::Move, Reg::ZERO, Reg::ZERO);
            without_operands(nop, lexemes)
        }
        Operation::Ret => without_operands(return_instruction(), lexemes),
        Operation::Unary(op) => {
            let (rd, rs) = register_and_register(lexemes)?;
            Ok(unary_instruction(op, rd, rs))
        }
        Operation::Jump => jump(Reg::ZERO, lexemes),
        Operation::JumpRegister => jump_register(Reg::ZERO, lexemes),
        _ => match fixed(operation, lexemes) {
            Ok(instr) => Ok(Instruction::Fixed(instr)),
            Err(fault) => Err(fault),
        },
    }
}

fn branch<'a>(op: BranchOp, rs1: Reg, rs2: Reg, target: Target<'a>) -> Instruction<'a>
    ensures { result ≡ Instruction.Branch op rs1 rs2 target.entry }
{
    Instruction::Branch {
        op,
        rs1,
        rs2,
        target,
    }
}

fn shift<'a>(op: ShiftOp, rd: Reg, rs1: Reg, amount: i64) -> Instruction<'a>
    ensures { result ≡ Instruction.Shift op rd rs1 amount }
{
    Instruction::Shift {
        op,
        rd,
        rs1,
        amount,
    }
}
