//! Encodes the instructions of RV32IA.
#![tactic(auto)]

ghost use Rattle.std.specs.Prelude.{◌≡◌, ◌+◌, ◌*◌, ◌^◌, ◌<◌};
ghost use Rattle.isa_table.specs.Spells.{SpellsInstr, bit};
ghost use Rattle.isa_table.specs.Table.{code, atomic_code};
ghost use Rattle.isa_table.specs.Table as table;

mod formats;
mod operations;

use formats::{atomic_funct7, b_word, fence_word, i_word, j_word, joined, r_word, s_word, u_word};
use isa_table::codes::{
    FUNCT3_JALR, FUNCT3_WORD, FUNCT5_LR, FUNCT5_SC, OPCODE_ATOMIC, OPCODE_AUIPC, OPCODE_BRANCH,
    OPCODE_IMMEDIATE, OPCODE_JAL, OPCODE_JALR, OPCODE_LOAD, OPCODE_LUI, OPCODE_REGISTER,
    OPCODE_STORE, WORD_EBREAK, WORD_ECALL,
};
use isa_table::{Instr, Reg, RegisterOp, ShiftAmount, ShiftOp};
use operations::{
    amo_funct5, branch_funct3, immediate_funct3, load_funct3, register_funct3, register_funct7,
    shift_funct3, shift_funct7, store_funct3,
};

/// The word that spells an instruction. Unprivileged ISA, "RV32/64G Instruction Set Listings".
#[tactic(auto, unfolding(isa_table::specs::Spells::word_of))]
pub fn encode(instr: &Instr) -> u32
    ensures { SpellsInstr result instr.now }
{
    match *instr {
        Instr::Lui { rd, imm } => u_word(imm, rd, OPCODE_LUI),
        Instr::Auipc { rd, imm } => u_word(imm, rd, OPCODE_AUIPC),
        Instr::Jal { rd, offset } => j_word(offset, rd, OPCODE_JAL),
        Instr::Jalr { rd, rs1, imm } => i_word(imm, rs1, FUNCT3_JALR, rd, OPCODE_JALR),
        Instr::Branch {
            op,
            rs1,
            rs2,
            offset,
        } => { b_word(offset, rs2, rs1, branch_funct3(op), OPCODE_BRANCH) }
        Instr::Load { op, rd, rs1, imm } => i_word(imm, rs1, load_funct3(op), rd, OPCODE_LOAD),
        Instr::Store { op, rs1, rs2, imm } => s_word(imm, rs2, rs1, store_funct3(op), OPCODE_STORE),
        Instr::Immediate { op, rd, rs1, imm } => {
            i_word(imm, rs1, immediate_funct3(op), rd, OPCODE_IMMEDIATE)
        }
        Instr::Shift {
            op,
            rd,
            rs1,
            amount,
        } => shift_word(op, amount, rs1, rd),
        Instr::Register { op, rd, rs1, rs2 } => register_word(op, rs2, rs1, rd),
        Instr::Fence {
            mode,
            pred,
            succ,
            rs1,
            rd,
        } => fence_word(mode, pred, succ, rs1, rd),
        Instr::Ecall => WORD_ECALL,
        Instr::Ebreak => WORD_EBREAK,
        Instr::LoadReserved { aq, rl, rd, rs1 } => {
            atomic_word(FUNCT5_LR, aq, rl, Reg::ZERO, rs1, rd)
        }
        Instr::StoreConditional {
            aq,
            rl,
            rd,
            rs1,
            rs2,
        } => { atomic_word(FUNCT5_SC, aq, rl, rs2, rs1, rd) }
        Instr::Amo {
            op,
            aq,
            rl,
            rd,
            rs1,
            rs2,
        } => { atomic_word(amo_funct5(op), aq, rl, rs2, rs1, rd) }
    }
}

// The word of a shift by an immediate.
fn shift_word(op: ShiftOp, amount: ShiftAmount, rs1: Reg, rd: Reg) -> u32
    ensures value { result ≡ code OPCODE_IMMEDIATE (table.shift_funct3 op) (table.shift_funct7 op)
        + rd * 2 ^ 7 + rs1 * 2 ^ 15 + amount * 2 ^ 20 }
    ensures operands { (rd < 2 ^ 5) × (rs1 < 2 ^ 5) × (amount < 2 ^ 5) }
{
    joined(
        shift_funct7(op),
        u32::from(amount.count()),
        u32::from(rs1.number()),
        shift_funct3(op),
        u32::from(rd.number()),
        OPCODE_IMMEDIATE,
    )
}

// The word of an operation on two registers.
fn register_word(op: RegisterOp, rs2: Reg, rs1: Reg, rd: Reg) -> u32
    ensures value { result
        ≡ code OPCODE_REGISTER (table.register_funct3 op) (table.register_funct7 op)
        + rd * 2 ^ 7 + rs1 * 2 ^ 15 + rs2 * 2 ^ 20 }
    ensures registers { (rd < 2 ^ 5) × (rs1 < 2 ^ 5) × (rs2 < 2 ^ 5) }
{
    let (funct7, funct3) = (register_funct7(op), register_funct3(op));
    r_word(funct7, rs2, rs1, funct3, rd, OPCODE_REGISTER)
}

// The word of an instruction of the A extension.
fn atomic_word(funct5: u32, aq: bool, rl: bool, rs2: Reg, rs1: Reg, rd: Reg) -> u32
    requires { funct5 < 2 ^ 5 }
    ensures value { result ≡ atomic_code funct5 + rd * 2 ^ 7 + rs1 * 2 ^ 15 + rs2 * 2 ^ 20
        + bit rl * 2 ^ 25 + bit aq * 2 ^ 26 }
    ensures registers { (rd < 2 ^ 5) × (rs1 < 2 ^ 5) × (rs2 < 2 ^ 5) }
{
    let funct7 = atomic_funct7(funct5, aq, rl);
    r_word(funct7, rs2, rs1, FUNCT3_WORD, rd, OPCODE_ATOMIC)
}
