//! The faults of a commit and of a run.
ghost use Rattle.std.specs.Prelude.{◌≡◌};
ghost use Rattle.thread_run.specs.Seat.{fault_of_present};

use thiserror::Error;
use thread_book::PresentFault;

/// The reason why a seat's segment is not taken into a shared book; the seat has then not changed.
#[derive(Clone, Copy, Debug, PartialEq, Eq, Error)]
pub enum CommitFault {
    /// The book has no such hart, or its hart or its code differs from those that the segment began
    /// with.
    #[error("stale")]
    Stale,
    /// Out of memory.
    #[error("out of memory")]
    Memory,
}

impl From<PresentFault> for CommitFault {
    ghost from_gives = { λ fault answer. answer ≡ fault_of_present fault };

    fn from(fault: PresentFault) -> CommitFault {
        match fault {
            PresentFault::NoHart => CommitFault::Stale,
            PresentFault::Stale => CommitFault::Stale,
            PresentFault::Memory => CommitFault::Memory,
        }
    }
}

/// The reason why a run of threads gives no book.
#[derive(Clone, Copy, Debug, PartialEq, Eq, Error)]
pub enum RunFault {
    /// The host does not start a thread.
    #[error("thread refused")]
    StartRefused,
    /// A hart was not where its own thread had left it. Only its thread moves a hart; no cause of
    /// this is known.
    #[error("stale")]
    Stale,
    /// Out of memory.
    #[error("out of memory")]
    Memory,
}
