//! The refusal of a statement.
ghost use Rattle.std.specs.Prelude.{◌≡◌};
ghost use Rattle.asm_parse.specs.declared.refusal.Refusal.TheVariants.{Memory};

use asm_statement::FaultKind;
use std::alloc::{AllocError, AllocFailed};

/// The reason why a statement gives nothing: its fault, or out of memory.
#[derive(Clone, Copy, PartialEq, Eq)]
pub enum Refusal {
    /// The statement has a fault.
    Wrong(FaultKind),
    /// Out of memory.
    Memory,
}

impl From<AllocError> for Refusal {
    ghost from_gives = { λ _ refusal. refusal ≡ Memory };

    fn from(_refused: AllocError) -> Refusal {
        Refusal::Memory
    }
}

impl<T: Drop> From<AllocFailed<T>> for Refusal {
    ghost from_gives = { λ _ refusal. refusal ≡ Memory };

    fn from(_refused: AllocFailed<T>) -> Refusal {
        Refusal::Memory
    }
}
