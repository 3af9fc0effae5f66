//! Why a hart's thread leaves no log.

/// Why a hart's thread leaves no log.
#[derive(Clone, Copy, PartialEq, Eq)]
pub enum StepFault {
    /// The host refused a thread.
    StartRefused,
    /// A step would have needed a stamp of `u64::MAX` or above.
    StampsExhausted,
    /// The lock of a word's bank had another bank. No way to get here is known: what a lock has is
    /// known by its type alone.
    OtherBank,
    /// The host refused memory.
    Memory,
}
