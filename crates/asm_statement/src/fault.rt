//! The faults of sources.
ghost use Rattle.std.specs.Prelude.{◌≡◌};
ghost use Rattle.asm_statement.specs.Fault.{source_fault_number};
ghost use Rattle.asm_statement.specs.declared.fault.AsmFault.TheVariants.{Memory};

use std::alloc::{AllocError, AllocFailed};
use thiserror::Error;

/// The kind of a statement's fault. Of several faults of one statement, the lowest number counts.
#[derive(Clone, Copy, Debug, PartialEq, Eq, Error)]
pub enum FaultKind {
    /// A byte that begins no token, a malformed number, or a string that its line does not end.
    #[error("Token")]
    Token,
    /// The statement begins with an unknown name, or with no name.
    #[error("Mnemonic")]
    Mnemonic,
    /// The number or the shapes of the operands are wrong for the mnemonic or the directive.
    #[error("Operands")]
    Operands,
    /// An operand that must be a register is another name.
    #[error("Register")]
    Register,
    /// A number is out of its operand's range.
    #[error("Range")]
    Range,
    /// A symbol or a local label is not defined.
    #[error("Undefined")]
    Undefined,
    /// A label is defined a second time.
    #[error("Twice")]
    Twice,
    /// A branch's or jump's offset is odd or out of its range.
    #[error("BranchRange")]
    BranchRange,
    /// An unknown directive, or an instruction or bytes in `.bss`.
    #[error("Directive")]
    Directive,
    /// An instruction at an address that is not a multiple of 4, or an alignment above 2^12.
    #[error("Align")]
    Align,
    /// Text and data segment have more than 2^24 bytes together.
    #[error("TooLarge")]
    TooLarge,
}

impl FaultKind {
    /// The kind's number, 1 to 11.
    pub fn number(self) -> u8
        ensures { result ≡ source_fault_number self }
    {
        match self {
            FaultKind::Token => 1,
            FaultKind::Mnemonic => 2,
            FaultKind::Operands => 3,
            FaultKind::Register => 4,
            FaultKind::Range => 5,
            FaultKind::Undefined => 6,
            FaultKind::Twice => 7,
            FaultKind::BranchRange => 8,
            FaultKind::Directive => 9,
            FaultKind::Align => 10,
            FaultKind::TooLarge => 11,
        }
    }
}

/// A fault and the place of its statement.
#[derive(Clone, Copy, Debug, PartialEq, Eq)]
pub struct Fault {
    pub kind: FaultKind,
    /// The index of the statement's source, from 0.
    pub source: usize,
    /// The line on which the statement begins, from 1.
    pub line: usize,
}

/// The reason why sources give no program: the fault that counts, or out of memory.
#[derive(Clone, Copy, Debug, PartialEq, Eq, Error)]
pub enum AsmFault {
    /// A statement has a fault.
    #[error("asm fault {} {} at {}:{}", .0.kind.number(), .0.kind, .0.source, .0.line)]
    At(Fault),
    /// Out of memory.
    #[error("out of memory")]
    Memory,
}

impl From<AllocError> for AsmFault {
    ghost from_gives = { λ _ fault. fault ≡ Memory };

    fn from(_refused: AllocError) -> AsmFault {
        AsmFault::Memory
    }
}

impl<T: Drop> From<AllocFailed<T>> for AsmFault {
    ghost from_gives = { λ _ fault. fault ≡ Memory };

    fn from(_refused: AllocFailed<T>) -> AsmFault {
        AsmFault::Memory
    }
}
