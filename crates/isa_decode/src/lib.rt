//! Decodes the instruction words of RV32IA.
#![tactic(auto)]

ghost use Rattle.std.specs.Prelude.{◌≡◌, ◌↔◌, Option, Some};
ghost use Rattle.isa_table.specs.Decoded as spec;
ghost use Rattle.isa_table.specs.Spells.{SpellsInstr};
ghost use Rattle.isa_table.specs.declared.instr.Instr.{Instr};

mod fields;
mod operations;

use fields::{
    branch_offset, fence_set, funct3, funct7, immediate, jump_offset, rd, rs1, rs2, shift_amount,
    store_immediate, upper_immediate,
};
use isa_table::{Instr, codes};
use operations::{amo_op, branch_op, immediate_op, load_op, register_op, shift_op, store_op};

/// The instruction that a word spells, or `None` if it spells none: words of other extensions,
/// words with a wrong fixed bit, and LR with rs2 not 0. Unprivileged ISA, "RV32/64G Instruction Set
/// Listings".
pub fn decode(word: u32) -> Option<Instr>
    ensures spelled { (i : Instr) → (result ≡ Some i) ↔ SpellsInstr word i }
    ensures computed { result ≡ spec.decoded word }
{
    instr_at(word)
}

// Selects by the opcode.
#[tactic(auto, unfolding(isa_table::specs::Decoded::decoded))]
fn instr_at(word: u32) -> Option<Instr>
    ensures { result ≡ spec.decoded word }
{
    let (rd, rs1, rs2) = (rd(word), rs1(word), rs2(word));
    match word & 0x7f {
        codes::OPCODE_LUI => Some(Instr::Lui {
            rd,
            imm: upper_immediate(word),
        }),
        codes::OPCODE_AUIPC => Some(Instr::Auipc {
            rd,
            imm: upper_immediate(word),
        }),
        codes::OPCODE_JAL => Some(Instr::Jal {
            rd,
            offset: jump_offset(word),
        }),
        codes::OPCODE_JALR => jalr_instr(word),
        codes::OPCODE_BRANCH => Some(Instr::Branch {
            op: branch_op(funct3(word))?,
            rs1,
            rs2,
            offset: branch_offset(word),
        }),
        codes::OPCODE_LOAD => Some(Instr::Load {
            op: load_op(funct3(word))?,
            rd,
            rs1,
            imm: immediate(word),
        }),
        codes::OPCODE_STORE => Some(Instr::Store {
            op: store_op(funct3(word))?,
            rs1,
            rs2,
            imm: store_immediate(word),
        }),
        codes::OPCODE_IMMEDIATE => immediate_instr(word),
        codes::OPCODE_REGISTER => Some(Instr::Register {
            op: register_op(funct7(word), funct3(word))?,
            rd,
            rs1,
            rs2,
        }),
        codes::OPCODE_FENCE => fence_instr(word),
        codes::OPCODE_SYSTEM => system_instr(word),
        codes::OPCODE_ATOMIC => atomic_instr(word),
        _ => None,
    }
}

// Opcode of JALR.
fn jalr_instr(word: u32) -> Option<Instr>
    ensures { result ≡ spec.jalr_at word }
{
    match funct3(word) {
        codes::FUNCT3_JALR => Some(Instr::Jalr {
            rd: rd(word),
            rs1: rs1(word),
            imm: immediate(word),
        }),
        _ => None,
    }
}

// Opcode of FENCE.
fn fence_instr(word: u32) -> Option<Instr>
    ensures { result ≡ spec.fence_at word }
{
    match funct3(word) {
        codes::FUNCT3_FENCE => Some(Instr::Fence {
            mode: fence_set(word >> 28),
            pred: fence_set(word >> 24),
            succ: fence_set(word >> 20),
            rs1: rs1(word),
            rd: rd(word),
        }),
        _ => None,
    }
}

// Opcode of the operations with an immediate, shifts among them.
fn immediate_instr(word: u32) -> Option<Instr>
    ensures { result ≡ spec.immediate_at word }
{
    let (rd, rs1) = (rd(word), rs1(word));
    match funct3(word) {
        codes::FUNCT3_SLLI | codes::FUNCT3_SRLI => {
            let op = shift_op(funct7(word), funct3(word))?;
            let amount = shift_amount(word);
            Some(Instr::Shift {
                op,
                rd,
                rs1,
                amount,
            })
        }
        code => Some(Instr::Immediate {
            op: immediate_op(code)?,
            rd,
            rs1,
            imm: immediate(word),
        }),
    }
}

// Opcode of the A extension.
fn atomic_instr(word: u32) -> Option<Instr>
    ensures { result ≡ spec.atomic_at word }
{
    if funct3(word) != codes::FUNCT3_WORD {
        return None;
    }
    let (rd, rs1, rs2) = (rd(word), rs1(word), rs2(word));
    let aq = (word >> 26) & 1 == 1;
    let rl = (word >> 25) & 1 == 1;
    match word >> 27 {
        codes::FUNCT5_LR if rs2.number() == 0 => Some(Instr::LoadReserved { aq, rl, rd, rs1 }),
        codes::FUNCT5_LR => None,
        codes::FUNCT5_SC => Some(Instr::StoreConditional {
            aq,
            rl,
            rd,
            rs1,
            rs2,
        }),
        code => Some(Instr::Amo {
            op: amo_op(code)?,
            aq,
            rl,
            rd,
            rs1,
            rs2,
        }),
    }
}

// Opcode of ECALL and EBREAK.
fn system_instr(word: u32) -> Option<Instr>
    ensures { result ≡ spec.system_at word }
{
    match word {
        codes::WORD_ECALL => Some(Instr::Ecall),
        codes::WORD_EBREAK => Some(Instr::Ebreak),
        _ => None,
    }
}
