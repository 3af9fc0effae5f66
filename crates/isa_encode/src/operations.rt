//! The codes of the operations.
ghost use Rattle.std.specs.Prelude.{◌≡◌, ◌^◌, ◌<◌};
ghost use Rattle.isa_table.specs.Table as table;

use isa_table::codes;
use isa_table::mnemonic::{AmoOp, BranchOp, ImmediateOp, LoadOp, RegisterOp, ShiftOp, StoreOp};

/// funct3 of a branch.
pub(crate) fn branch_funct3(op: BranchOp) -> u32
    ensures value { result ≡ table.branch_funct3 op }
    ensures range { result < 2 ^ 3 }
{
    match op {
        BranchOp::Beq => codes::FUNCT3_BEQ,
        BranchOp::Bne => codes::FUNCT3_BNE,
        BranchOp::Blt => codes::FUNCT3_BLT,
        BranchOp::Bge => codes::FUNCT3_BGE,
        BranchOp::Bltu => codes::FUNCT3_BLTU,
        BranchOp::Bgeu => codes::FUNCT3_BGEU,
    }
}

/// funct3 of a load.
pub(crate) fn load_funct3(op: LoadOp) -> u32
    ensures value { result ≡ table.load_funct3 op }
    ensures range { result < 2 ^ 3 }
{
    match op {
        LoadOp::Lb => codes::FUNCT3_LB,
        LoadOp::Lh => codes::FUNCT3_LH,
        LoadOp::Lw => codes::FUNCT3_LW,
        LoadOp::Lbu => codes::FUNCT3_LBU,
        LoadOp::Lhu => codes::FUNCT3_LHU,
    }
}

/// funct3 of a store.
pub(crate) fn store_funct3(op: StoreOp) -> u32
    ensures value { result ≡ table.store_funct3 op }
    ensures range { result < 2 ^ 3 }
{
    match op {
        StoreOp::Sb => codes::FUNCT3_SB,
        StoreOp::Sh => codes::FUNCT3_SH,
        StoreOp::Sw => codes::FUNCT3_SW,
    }
}

/// funct3 of an operation with an immediate.
pub(crate) fn immediate_funct3(op: ImmediateOp) -> u32
    ensures value { result ≡ table.immediate_funct3 op }
    ensures range { result < 2 ^ 3 }
{
    match op {
        ImmediateOp::Addi => codes::FUNCT3_ADDI,
        ImmediateOp::Slti => codes::FUNCT3_SLTI,
        ImmediateOp::Sltiu => codes::FUNCT3_SLTIU,
        ImmediateOp::Xori => codes::FUNCT3_XORI,
        ImmediateOp::Ori => codes::FUNCT3_ORI,
        ImmediateOp::Andi => codes::FUNCT3_ANDI,
    }
}

/// funct3 of a shift by an immediate.
pub(crate) fn shift_funct3(op: ShiftOp) -> u32
    ensures value { result ≡ table.shift_funct3 op }
    ensures range { result < 2 ^ 3 }
{
    match op {
        ShiftOp::Slli => codes::FUNCT3_SLLI,
        ShiftOp::Srli | ShiftOp::Srai => codes::FUNCT3_SRLI,
    }
}

/// funct7 of a shift by an immediate.
pub(crate) fn shift_funct7(op: ShiftOp) -> u32
    ensures value { result ≡ table.shift_funct7 op }
    ensures range { result < 2 ^ 7 }
{
    match op {
        ShiftOp::Slli | ShiftOp::Srli => codes::FUNCT7_BASE,
        ShiftOp::Srai => codes::FUNCT7_ALTERNATE,
    }
}

/// funct3 of an operation on two registers.
pub(crate) fn register_funct3(op: RegisterOp) -> u32
    ensures value { result ≡ table.register_funct3 op }
    ensures range { result < 2 ^ 3 }
{
    match op {
        RegisterOp::Add | RegisterOp::Sub => codes::FUNCT3_ADD,
        RegisterOp::Sll => codes::FUNCT3_SLL,
        RegisterOp::Slt => codes::FUNCT3_SLT,
        RegisterOp::Sltu => codes::FUNCT3_SLTU,
        RegisterOp::Xor => codes::FUNCT3_XOR,
        RegisterOp::Srl | RegisterOp::Sra => codes::FUNCT3_SRL,
        RegisterOp::Or => codes::FUNCT3_OR,
        RegisterOp::And => codes::FUNCT3_AND,
    }
}

/// funct7 of an operation on two registers.
pub(crate) fn register_funct7(op: RegisterOp) -> u32
    ensures value { result ≡ table.register_funct7 op }
    ensures range { result < 2 ^ 7 }
{
    match op {
        RegisterOp::Sub | RegisterOp::Sra => codes::FUNCT7_ALTERNATE,
        _ => codes::FUNCT7_BASE,
    }
}

/// Bits 31 to 27 of an atomic memory operation.
pub(crate) fn amo_funct5(op: AmoOp) -> u32
    ensures value { result ≡ table.amo_funct5 op }
    ensures range { result < 2 ^ 5 }
{
    match op {
        AmoOp::Amoadd => codes::FUNCT5_AMOADD,
        AmoOp::Amoswap => codes::FUNCT5_AMOSWAP,
        AmoOp::Amoxor => codes::FUNCT5_AMOXOR,
        AmoOp::Amoor => codes::FUNCT5_AMOOR,
        AmoOp::Amoand => codes::FUNCT5_AMOAND,
        AmoOp::Amomin => codes::FUNCT5_AMOMIN,
        AmoOp::Amomax => codes::FUNCT5_AMOMAX,
        AmoOp::Amominu => codes::FUNCT5_AMOMINU,
        AmoOp::Amomaxu => codes::FUNCT5_AMOMAXU,
    }
}
