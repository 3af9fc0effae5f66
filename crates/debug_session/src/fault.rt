//! The faults of a move.

use thiserror::Error;

/// The reason why a move fails; nothing has then changed.
#[derive(Clone, Copy, Debug, PartialEq, Eq, Error)]
pub enum MoveFault {
    /// The position is above the number of choices, or below 0.
    #[error("past end")]
    PastEnd,
    /// Out of memory.
    #[error("out of memory")]
    Memory,
}
