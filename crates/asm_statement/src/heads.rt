//! The meanings of statements' first names.
use crate::statement::Section;
use isa_table::{AmoOp, BranchOp, ImmediateOp, LoadOp, Order, RegisterOp, ShiftOp, StoreOp};

/// A pseudo-instruction of two registers, rd and rs.
#[derive(Clone, Copy, PartialEq, Eq)]
pub enum Unary {
    /// rd gets rs.
    Move,
    /// rd gets the complement of rs.
    Not,
    /// rd gets the negation of rs.
    Negate,
    /// rd gets 1 if rs is 0, else 0.
    IsZero,
    /// rd gets 1 if rs is not 0, else 0.
    IsNotZero,
    /// rd gets 1 if rs is below 0, else 0.
    IsNegative,
    /// rd gets 1 if rs is above 0, else 0.
    IsPositive,
}

/// An instruction, or a pseudo-instruction that is always one instruction.
#[derive(Clone, Copy, PartialEq, Eq)]
pub enum Operation {
    Lui,
    Auipc,
    /// With one operand, rd is `ra`.
    Jal,
    /// With one operand, rd is `ra`.
    Jalr,
    Branch(BranchOp),
    Load(LoadOp),
    Store(StoreOp),
    Immediate(ImmediateOp),
    Shift(ShiftOp),
    Register(RegisterOp),
    /// Without operands, of all accesses.
    Fence,
    FenceTso,
    Ecall,
    Ebreak,
    LoadReserved(Order),
    StoreConditional(Order),
    Amo(AmoOp, Order),
    /// `addi zero, zero, 0`
    Nop,
    /// `jalr zero, 0(ra)`
    Ret,
    Unary(Unary),
    /// A branch that compares a register with zero.
    BranchZero(BranchOp),
    /// A branch that compares zero with a register.
    ZeroBranch(BranchOp),
    /// A branch with its two registers swapped.
    SwappedBranch(BranchOp),
    /// `jal zero, t`
    Jump,
    /// `jalr zero, 0(rs)`
    JumpRegister,
}

/// The meaning of a statement's first name.
#[derive(Clone, Copy, PartialEq, Eq)]
pub enum Head {
    Operation(Operation),
    Li,
    La,
    Call,
    Tail,
    /// `.text`, `.data`, `.bss`
    Section(Section),
    /// `.section`
    NamedSection,
    Words,
    Halves,
    Bytes,
    /// Strings; a zero byte follows each if `ended` is set.
    Ascii { ended: bool },
    Zero,
    Align,
    Global,
    /// A directive that is ignored.
    Skipped,
}
