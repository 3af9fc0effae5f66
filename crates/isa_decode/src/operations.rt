//! Operations by their codes.
ghost use Rattle.std.specs.Prelude.{◌≡◌};
ghost use Rattle.isa_table.specs.Decoded as spec;

use isa_table::codes;
use isa_table::mnemonic::{AmoOp, BranchOp, ImmediateOp, LoadOp, RegisterOp, ShiftOp, StoreOp};

/// The branch with this funct3.
pub(crate) fn branch_op(funct3: u32) -> Option<BranchOp>
    ensures { result ≡ spec.branch_op funct3 }
{
    match funct3 {
        codes::FUNCT3_BEQ => Some(BranchOp::Beq),
        codes::FUNCT3_BNE => Some(BranchOp::Bne),
        codes::FUNCT3_BLT => Some(BranchOp::Blt),
        codes::FUNCT3_BGE => Some(BranchOp::Bge),
        codes::FUNCT3_BLTU => Some(BranchOp::Bltu),
        codes::FUNCT3_BGEU => Some(BranchOp::Bgeu),
        _ => None,
    }
}

/// The load with this funct3.
pub(crate) fn load_op(funct3: u32) -> Option<LoadOp>
    ensures { result ≡ spec.load_op funct3 }
{
    match funct3 {
        codes::FUNCT3_LB => Some(LoadOp::Lb),
        codes::FUNCT3_LH => Some(LoadOp::Lh),
        codes::FUNCT3_LW => Some(LoadOp::Lw),
        codes::FUNCT3_LBU => Some(LoadOp::Lbu),
        codes::FUNCT3_LHU => Some(LoadOp::Lhu),
        _ => None,
    }
}

/// The store with this funct3.
pub(crate) fn store_op(funct3: u32) -> Option<StoreOp>
    ensures { result ≡ spec.store_op funct3 }
{
    match funct3 {
        codes::FUNCT3_SB => Some(StoreOp::Sb),
        codes::FUNCT3_SH => Some(StoreOp::Sh),
        codes::FUNCT3_SW => Some(StoreOp::Sw),
        _ => None,
    }
}

/// The operation with an immediate, no shift, with this funct3.
pub(crate) fn immediate_op(funct3: u32) -> Option<ImmediateOp>
    ensures { result ≡ spec.immediate_op funct3 }
{
    match funct3 {
        codes::FUNCT3_ADDI => Some(ImmediateOp::Addi),
        codes::FUNCT3_SLTI => Some(ImmediateOp::Slti),
        codes::FUNCT3_SLTIU => Some(ImmediateOp::Sltiu),
        codes::FUNCT3_XORI => Some(ImmediateOp::Xori),
        codes::FUNCT3_ORI => Some(ImmediateOp::Ori),
        codes::FUNCT3_ANDI => Some(ImmediateOp::Andi),
        _ => None,
    }
}

/// The shift by an immediate with these codes.
pub(crate) fn shift_op(funct7: u32, funct3: u32) -> Option<ShiftOp>
    ensures { result ≡ spec.shift_op funct7 funct3 }
{
    match (funct7, funct3) {
        (codes::FUNCT7_BASE, codes::FUNCT3_SLLI) => Some(ShiftOp::Slli),
        (codes::FUNCT7_BASE, codes::FUNCT3_SRLI) => Some(ShiftOp::Srli),
        (codes::FUNCT7_ALTERNATE, codes::FUNCT3_SRLI) => Some(ShiftOp::Srai),
        _ => None,
    }
}

/// The operation on two registers with these codes.
pub(crate) fn register_op(funct7: u32, funct3: u32) -> Option<RegisterOp>
    ensures { result ≡ spec.register_op funct7 funct3 }
{
    match (funct7, funct3) {
        (codes::FUNCT7_BASE, codes::FUNCT3_ADD) => Some(RegisterOp::Add),
        (codes::FUNCT7_ALTERNATE, codes::FUNCT3_ADD) => Some(RegisterOp::Sub),
        (codes::FUNCT7_BASE, codes::FUNCT3_SLL) => Some(RegisterOp::Sll),
        (codes::FUNCT7_BASE, codes::FUNCT3_SLT) => Some(RegisterOp::Slt),
        (codes::FUNCT7_BASE, codes::FUNCT3_SLTU) => Some(RegisterOp::Sltu),
        (codes::FUNCT7_BASE, codes::FUNCT3_XOR) => Some(RegisterOp::Xor),
        (codes::FUNCT7_BASE, codes::FUNCT3_SRL) => Some(RegisterOp::Srl),
        (codes::FUNCT7_ALTERNATE, codes::FUNCT3_SRL) => Some(RegisterOp::Sra),
        (codes::FUNCT7_BASE, codes::FUNCT3_OR) => Some(RegisterOp::Or),
        (codes::FUNCT7_BASE, codes::FUNCT3_AND) => Some(RegisterOp::And),
        _ => None,
    }
}

/// The atomic memory operation with these bits 31 to 27.
pub(crate) fn amo_op(funct5: u32) -> Option<AmoOp>
    ensures { result ≡ spec.amo_op funct5 }
{
    match funct5 {
        codes::FUNCT5_AMOADD => Some(AmoOp::Amoadd),
        codes::FUNCT5_AMOSWAP => Some(AmoOp::Amoswap),
        codes::FUNCT5_AMOXOR => Some(AmoOp::Amoxor),
        codes::FUNCT5_AMOOR => Some(AmoOp::Amoor),
        codes::FUNCT5_AMOAND => Some(AmoOp::Amoand),
        codes::FUNCT5_AMOMIN => Some(AmoOp::Amomin),
        codes::FUNCT5_AMOMAX => Some(AmoOp::Amomax),
        codes::FUNCT5_AMOMINU => Some(AmoOp::Amominu),
        codes::FUNCT5_AMOMAXU => Some(AmoOp::Amomaxu),
        _ => None,
    }
}
