//! A hart: its registers, its pc and its state.
ghost use Rattle.std.specs.Prelude.{◌≡◌, slice_index};

/// The fault that stopped a hart. If several apply, the first in this order counts: fetch, illegal,
/// misaligned, access, jump.
#[derive(Clone, Copy, PartialEq, Eq)]
pub enum Cause {
    /// A byte of the instruction is not executable.
    FetchAccess,
    /// The word spells no instruction.
    Illegal,
    /// A load's address is not a multiple of its size.
    LoadMisaligned,
    /// A byte of a load has no right.
    LoadAccess,
    /// The address of a store, a store-conditional or an AMO is not a multiple of its size.
    StoreMisaligned,
    /// A byte of a store, a store-conditional or an AMO is not writable.
    StoreAccess,
    /// The target of a jump or a taken branch is not a multiple of 4.
    JumpMisaligned,
    /// An ECALL whose `a7` is not 93.
    BadCall,
    /// An EBREAK.
    Break,
}

/// Whether a hart runs, has exited or has faulted.
#[derive(Clone, Copy, PartialEq, Eq)]
pub enum HartState {
    /// The hart goes on when it is chosen.
    Running,
    /// The hart made the exit call, with this status.
    Exited(u32),
    /// The hart's instruction faulted.
    Faulted(Cause),
}

/// The state of one hart. Code that makes or changes one must leave 0 in `x0`. Unprivileged ISA,
/// "Programmers' Model for Base Integer ISA".
#[derive(Clone, Copy, PartialEq, Eq)]
pub struct Hart {
    /// `x0` to `x31`; `x0` is 0.
    pub registers: [u32; 32],
    /// The address of the next instruction, or of the one that stopped the hart.
    pub pc: u32,
    /// Whether the hart runs.
    pub state: HartState,
    pub ghost x0_is_zero: { slice_index registers 0 ≡ 0 },
}
