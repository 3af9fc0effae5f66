//! The instructions of a statement, from its operands' values.
ghost use Rattle.std.specs.Prelude.{◌≡◌, ◌≤◌, ◌<◌, ◌^◌, Some, None, if◌then◌else◌};
ghost use Rattle.asm_assemble.specs.Program.{symbol_list};
ghost use Rattle.asm_assemble.specs.Numbers.{is_signed_word};
ghost use Rattle.asm_assemble.specs.Instructions.{addi, offset_to, placed_instr, is_short, li_pair, la_pair, jump_pair, instr_pair, pseudo_size};

use crate::number::{
    amount_of, as_word, branch_offset, distance, high_part, jump_offset, low_part,
};
use crate::operand::{immediate_of, symbol_value, target_of, upper_of};
use crate::program::Symbols;
use asm_statement::{FaultKind, Instruction, Pseudo, Target};
use isa_table::{BranchOffset, Immediate12, ImmediateOp, Instr, JumpOffset, Reg};
use std::alloc::Allocator;

/// One or two consecutive instructions.
#[derive(Clone, Copy)]
pub struct Pair {
    pub first: Instr,
    pub second: Option<Instr>,
}

// The offset of a branch at an address to a target.
#[tactic(auto, unfolding(crate::specs::Instructions::offset_to))]
fn branch_to<A: Allocator>(
    symbols: &Symbols<A>,
    local: Option<u32>,
    at: u128,
    target: &Target<'_>,
) -> Result<BranchOffset, FaultKind>
    ensures { result ≡ offset_to 13 (symbol_list symbols.now.entries) local at target.now }
{
    let to = target_of(symbols, local, target)?;
    branch_offset(distance(at, to))
}

// The offset of a jump at an address to a target.
#[tactic(auto, unfolding(crate::specs::Instructions::offset_to))]
fn jump_to<A: Allocator>(
    symbols: &Symbols<A>,
    local: Option<u32>,
    at: u128,
    target: &Target<'_>,
) -> Result<JumpOffset, FaultKind>
    ensures { result ≡ offset_to 21 (symbol_list symbols.now.entries) local at target.now }
{
    let to = target_of(symbols, local, target)?;
    jump_offset(distance(at, to))
}

/// The instruction of a statement at an address.
#[tactic(auto, unfolding(crate::specs::Instructions::placed_instr))]
pub fn instr_of<A: Allocator>(
    symbols: &Symbols<A>,
    local: Option<u32>,
    at: u128,
    instruction: &Instruction<'_>,
) -> Result<Instr, FaultKind>
    ensures { result ≡ placed_instr (symbol_list symbols.now.entries) local at instruction.now }
{
    Ok(match instruction {
        Instruction::Fixed(instr) => *instr,
        Instruction::Lui { rd, imm } => Instr::Lui {
            rd: *rd,
            imm: upper_of(symbols, imm)?,
        },
        Instruction::Auipc { rd, imm } => Instr::Auipc {
            rd: *rd,
            imm: upper_of(symbols, imm)?,
        },
        Instruction::Jal { rd, target } => Instr::Jal {
            rd: *rd,
            offset: jump_to(symbols, local, at, target)?,
        },
        Instruction::Jalr { rd, rs1, imm } => Instr::Jalr {
            rd: *rd,
            rs1: *rs1,
            imm: immediate_of(symbols, imm)?,
        },
        Instruction::Branch {
            op,
            rs1,
            rs2,
            target,
        } => Instr::Branch {
            op: *op,
            rs1: *rs1,
            rs2: *rs2,
            offset: branch_to(symbols, local, at, target)?,
        },
        Instruction::Load { op, rd, rs1, imm } => Instr::Load {
            op: *op,
            rd: *rd,
            rs1: *rs1,
            imm: immediate_of(symbols, imm)?,
        },
        Instruction::Store { op, rs1, rs2, imm } => Instr::Store {
            op: *op,
            rs1: *rs1,
            rs2: *rs2,
            imm: immediate_of(symbols, imm)?,
        },
        Instruction::Immediate { op, rd, rs1, imm } => Instr::Immediate {
            op: *op,
            rd: *rd,
            rs1: *rs1,
            imm: immediate_of(symbols, imm)?,
        },
        Instruction::Shift {
            op,
            rd,
            rs1,
            amount,
        } => Instr::Shift {
            op: *op,
            rd: *rd,
            rs1: *rs1,
            amount: amount_of(*amount)?,
        },
    })
}

// `addi rd, rs1, imm`.
fn addi(rd: Reg, rs1: Reg, imm: Immediate12) -> Instr
    ensures { result ≡ addi rd rs1 imm }
{
    Instr::Immediate {
        op: ImmediateOp::Addi,
        rd,
        rs1,
        imm,
    }
}

// The 12-bit immediate that is sign-extended to a word, if there is one.
fn short_of(word: u32) -> Option<Immediate12>
    ensures { result ≡ (if is_signed_word 12 word then Some word else None) }
{
    Immediate12::of_word(word)
}

// `li` of a word: ADDI if it is a 12-bit signed number, else LUI, and ADDI if the low part is not
// 0.
#[tactic(auto, unfolding(crate::specs::Instructions::li_pair))]
fn li_pair(rd: Reg, word: u32) -> Pair
    ensures { result ≡ li_pair rd word }
{
    if let Some(imm) = short_of(word) {
        return Pair {
            first: addi(rd, Reg::ZERO, imm),
            second: None,
        };
    }
    let low = low_part(word);
    let first = Instr::Lui {
        rd,
        imm: high_part(word),
    };
    let second = if low.word() == 0 {
        None
    } else {
        Some(addi(rd, rd, low))
    };
    Pair { first, second }
}

// Whether `li` of a word is one instruction.
#[tactic(auto, unfolding(crate::specs::Instructions::is_short))]
fn is_short(word: u32) -> bool
    ensures { result ≡ is_short word }
{
    short_of(word).is_some() || low_part(word).word() == 0
}

// The two instructions that put the target at a distance from the first of them into a register.
#[tactic(auto, unfolding(crate::specs::Instructions::la_pair))]
fn la_pair(rd: Reg, d: u32) -> Pair
    ensures { result ≡ la_pair rd d }
{
    Pair {
        first: Instr::Auipc {
            rd,
            imm: high_part(d),
        },
        second: Some(addi(rd, rd, low_part(d))),
    }
}

// The two instructions that jump by a distance from the first of them, through a register.
#[tactic(auto, unfolding(crate::specs::Instructions::jump_pair))]
fn jump_pair(by: Reg, rd: Reg, d: u32) -> Pair
    ensures { result ≡ jump_pair by rd d }
{
    Pair {
        first: Instr::Auipc {
            rd: by,
            imm: high_part(d),
        },
        second: Some(Instr::Jalr {
            rd,
            rs1: by,
            imm: low_part(d),
        }),
    }
}

/// The instructions of a pseudo-instruction at an address.
#[tactic(auto, unfolding(crate::specs::Instructions::instr_pair, crate::specs::Numbers::is_in_range))]
pub fn pair_of<A: Allocator>(
    symbols: &Symbols<A>,
    at: u128,
    pseudo: &Pseudo<'_>,
) -> Result<Pair, FaultKind>
    ensures { result ≡ instr_pair (symbol_list symbols.now.entries) at pseudo.now }
{
    match pseudo {
        Pseudo::Li { number, .. } if *number < -0x8000_0000 => Err(FaultKind::Range),
        Pseudo::Li { rd, number } => Ok(li_pair(*rd, as_word(*number))),
        Pseudo::La { rd, name, offset } => {
            let to = symbol_value(symbols, name.as_str(), *offset)?;
            Ok(la_pair(*rd, distance(at, to)))
        }
        Pseudo::Call { name } => {
            let to = symbol_value(symbols, name.as_str(), 0)?;
            Ok(jump_pair(Reg::RA, Reg::RA, distance(at, to)))
        }
        Pseudo::Tail { name } => {
            let to = symbol_value(symbols, name.as_str(), 0)?;
            Ok(jump_pair(Reg::TEMPORARY_1, Reg::ZERO, distance(at, to)))
        }
    }
}

/// The size of a pseudo-instruction in bytes.
#[tactic(auto, unfolding(crate::specs::Instructions::pseudo_size))]
pub fn pseudo_size(pseudo: &Pseudo<'_>) -> u128
    ensures value { result ≡ pseudo_size pseudo.now }
    ensures small { result ≤ 8 }
{
    match pseudo {
        Pseudo::Li { number, .. } if is_short(as_word(*number)) => 4,
        Pseudo::Li { .. } | Pseudo::La { .. } | Pseudo::Call { .. } | Pseudo::Tail { .. } => 8,
    }
}
