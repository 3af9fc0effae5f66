//! Instructions. Titles are those of the Unprivileged ISA.
ghost use Rattle.std.specs.Prelude.{◌≡◌};
ghost use Rattle.isa_table.specs.Spells.{mnemonic_of};

use crate::fields::{
    BranchOffset, FenceSet, Immediate12, JumpOffset, Reg, ShiftAmount, UpperImmediate,
};
use crate::mnemonic::{
    AmoOp, BranchOp, ImmediateOp, LoadOp, Mnemonic, RegisterOp, ShiftOp, StoreOp,
};

/// An instruction of RV32IA with its operands, each in range by its type.
/// `rd` is the destination register; `rs1` and `rs2` are the sources.
#[derive(Clone, Copy, PartialEq, Eq)]
pub enum Instr {
    /// LUI: rd gets the immediate's 20 bits with twelve zeros below. "Integer Register-Immediate
    /// Instructions".
    Lui {
        rd: Reg,
        imm: UpperImmediate,
    },
    /// AUIPC: rd gets pc and the immediate's 20 bits with twelve zeros below.
    /// "Integer Register-Immediate Instructions".
    Auipc {
        rd: Reg,
        imm: UpperImmediate,
    },
    /// JAL: jumps by the offset; rd gets the address after the jump. "Unconditional Jumps".
    Jal {
        rd: Reg,
        offset: JumpOffset,
    },
    /// JALR: jumps to rs1 + immediate, with bit 0 cleared. "Unconditional Jumps".
    Jalr {
        rd: Reg,
        rs1: Reg,
        imm: Immediate12,
    },
    /// Jumps by the offset if the test holds. "Conditional Branches".
    Branch {
        op: BranchOp,
        rs1: Reg,
        rs2: Reg,
        offset: BranchOffset,
    },
    /// rd gets the value at address rs1 + immediate. "Load and Store Instructions".
    Load {
        op: LoadOp,
        rd: Reg,
        rs1: Reg,
        imm: Immediate12,
    },
    /// Writes rs2 at address rs1 + immediate. "Load and Store Instructions".
    Store {
        op: StoreOp,
        rs1: Reg,
        rs2: Reg,
        imm: Immediate12,
    },
    /// rd gets the operation of rs1 and the immediate. "Integer Register-Immediate Instructions".
    Immediate {
        op: ImmediateOp,
        rd: Reg,
        rs1: Reg,
        imm: Immediate12,
    },
    /// rd gets rs1 shifted. "Integer Register-Immediate Instructions".
    Shift {
        op: ShiftOp,
        rd: Reg,
        rs1: Reg,
        amount: ShiftAmount,
    },
    /// rd gets the operation of rs1 and rs2. "Integer Register-Register Operations".
    Register {
        op: RegisterOp,
        rd: Reg,
        rs1: Reg,
        rs2: Reg,
    },
    /// FENCE, with `mode` for fm. The manual reserves rd and rs1 for finer fences. "Memory Ordering
    /// Instructions".
    Fence {
        mode: FenceSet,
        pred: FenceSet,
        succ: FenceSet,
        rs1: Reg,
        rd: Reg,
    },
    /// ECALL. "Environment Call and Breakpoints".
    Ecall,
    /// EBREAK. "Environment Call and Breakpoints".
    Ebreak,
    /// LR.W: rd gets the word at address rs1, which is then reserved; `aq` and `rl` are acquire and
    /// release. A extension, "Load-Reserved/Store-Conditional Instructions".
    LoadReserved {
        aq: bool,
        rl: bool,
        rd: Reg,
        rs1: Reg,
    },
    /// SC.W: writes rs2 at address rs1 if that word is reserved; rd gets 0 if it does, else 1. A
    /// extension, "Load-Reserved/Store-Conditional Instructions".
    StoreConditional {
        aq: bool,
        rl: bool,
        rd: Reg,
        rs1: Reg,
        rs2: Reg,
    },
    /// rd gets the word at address rs1; the result of the operation on it and rs2 is written there.
    /// A extension, "Atomic Memory Operations".
    Amo {
        op: AmoOp,
        aq: bool,
        rl: bool,
        rd: Reg,
        rs1: Reg,
        rs2: Reg,
    },
}

impl Instr {
    /// The instruction without its operands.
    pub fn mnemonic(&self) -> Mnemonic
        ensures { result ≡ mnemonic_of self.now }
    {
        match *self {
            Instr::Lui { .. } => Mnemonic::Lui,
            Instr::Auipc { .. } => Mnemonic::Auipc,
            Instr::Jal { .. } => Mnemonic::Jal,
            Instr::Jalr { .. } => Mnemonic::Jalr,
            Instr::Branch { op, .. } => Mnemonic::Branch(op),
            Instr::Load { op, .. } => Mnemonic::Load(op),
            Instr::Store { op, .. } => Mnemonic::Store(op),
            Instr::Immediate { op, .. } => Mnemonic::Immediate(op),
            Instr::Shift { op, .. } => Mnemonic::Shift(op),
            Instr::Register { op, .. } => Mnemonic::Register(op),
            Instr::Fence { .. } => Mnemonic::Fence,
            Instr::Ecall => Mnemonic::Ecall,
            Instr::Ebreak => Mnemonic::Ebreak,
            Instr::LoadReserved { .. } => Mnemonic::LoadReserved,
            Instr::StoreConditional { .. } => Mnemonic::StoreConditional,
            Instr::Amo { op, .. } => Mnemonic::Amo(op),
        }
    }
}
