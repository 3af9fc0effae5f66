//! A thing that a choice did.

use hart_step::Cause;
use trace_steps::{Failure, Written};

/// A thing that a choice did, which its row tells.
#[derive(Clone, Copy, PartialEq, Eq)]
pub enum Effect {
    /// The store-conditional stored.
    Succeeds,
    /// The store-conditional did not store, for this reason.
    Fails(Failure),
    /// A register was written.
    Sets(Written),
    /// Bytes were stored.
    Stores {
        /// The first one's address.
        address: u32,
        /// The number that they spelled before, the lowest byte first.
        before: u32,
        /// The number that they spell now.
        after: u32,
    },
    /// Bytes from this address on were accessed, and not stored.
    Accesses(u32),
    /// The hart stopped itself, with this status.
    Exits(u32),
    /// The instruction stopped the hart.
    Faults(Cause),
    /// The hart had stopped before, and nothing happened.
    Rests,
}
