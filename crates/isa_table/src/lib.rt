//! The instructions of RV32IA: their operands, their mnemonics and the table of their encodings.
//! Unprivileged ISA, "RV32I Base Integer Instruction Set" and "A Extension for Atomic
//! Instructions".
#![tactic(auto)]

mod code_laws;
pub mod codes;
pub mod fields;
pub mod instr;
pub mod laws;
pub mod mnemonic;
pub mod signed;
pub mod table;
pub mod vectors;

pub use code_laws::codes_are_the_manuals;
pub use fields::{
    BranchOffset, FenceSet, Immediate12, JumpOffset, Order, Reg, ShiftAmount, UpperImmediate,
};
pub use instr::Instr;
pub use mnemonic::{AmoOp, BranchOp, ImmediateOp, LoadOp, Mnemonic, RegisterOp, ShiftOp, StoreOp};
pub use table::{Field, Operand, Row, rows};
