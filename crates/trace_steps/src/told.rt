//! What a choice did, as data.

use hart_step::{AccessKind, HartState};
use isa_table::{Instr, Reg};
use machine::Choice;

/// What one choice did.
#[derive(Clone, Copy, PartialEq, Eq)]
pub struct Told {
    /// The choice.
    pub choice: Choice,
    /// Where its hart stood before the step, a byte address.
    pub pc: u32,
    /// The instruction word at `pc`; none where it may not be fetched, and where the hart had
    /// stopped before.
    pub word: Option<u32>,
    /// The instruction that the word spells; none where it spells none.
    pub instr: Option<Instr>,
    /// The access of data that the instruction has, also where it is a fault.
    pub access: Option<ToldAccess>,
    /// The register that the step wrote: none where the instruction has no destination, where that
    /// is `x0`, and where the hart faulted.
    pub written: Option<Written>,
    /// The address of the word that the hart has reserved after the step.
    pub reserved: Option<u32>,
    /// Where the hart stands after the step, a byte address.
    pub next: u32,
    /// Whether the hart runs after the step.
    pub state: HartState,
}

/// Bytes of memory that an instruction accessed together.
#[derive(Clone, Copy, PartialEq, Eq)]
pub struct ToldAccess {
    /// What is done with them.
    pub kind: AccessKind,
    /// The first address.
    pub address: u32,
    /// How many they are: 1, 2 or 4.
    pub size: u32,
    /// The number that they spelled before the step, the lowest byte first; none where they are not
    /// all mapped.
    pub before: Option<u32>,
    /// The number that they spell after the step.
    pub after: Option<u32>,
}

/// A register that was written.
#[derive(Clone, Copy, PartialEq, Eq)]
pub struct Written {
    /// The register, never `x0`.
    pub register: Reg,
    /// Its value after the step.
    pub value: u32,
}
