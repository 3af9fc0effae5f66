//! One access to one word, as logs record it.

/// How a step accesses a word.
#[derive(Clone, Copy, Drop, PartialEq, Eq, PartialOrd, Ord)]
pub enum LoggedKind {
    /// The step fetches its instruction.
    CodeRead,
    /// It loads bytes.
    Load,
    /// It stores bytes; an AMO is logged as a store.
    Store,
    /// It is an LR.
    LoadReserved,
    /// It is an SC that stored.
    ConditionalStored,
    /// It is an SC that failed.
    ConditionalFailed,
}

/// One access of one word by one step.
#[derive(Clone, Copy, Drop, PartialEq, Eq, PartialOrd, Ord)]
pub struct LoggedAccess {
    /// The stamp of the step, which orders it among those of other harts.
    pub stamp: u64,
    /// The hart's number, from 0.
    pub hart: u32,
    /// How the word is accessed.
    pub kind: LoggedKind,
    /// The address of the word, a multiple of 4.
    pub word: u32,
    /// The word's bytes before the access, lowest address first. An unmapped byte is 0.
    pub before: [u8; 4],
    /// The word's bytes after the access.
    pub after: [u8; 4],
    /// Whether the word's bank held this hart's mark on the word before the access.
    pub mark: bool,
}
