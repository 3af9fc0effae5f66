//! Why a run fails.
use thiserror::Error;

/// Why a run of threads over banks leaves no logs.
#[derive(Clone, Copy, Debug, PartialEq, Eq, Error)]
pub enum RunFault {
    /// The host refused a thread.
    #[error("thread refused")]
    StartRefused,
    /// A step would have needed a stamp of `u64::MAX` or above.
    #[error("stamps exhausted")]
    StampsExhausted,
    /// The logs of harts and of banks are not of one run. Each log keeps its own invariant, so no
    /// way to get here is known.
    #[error("stale")]
    Stale,
    /// The host refused memory.
    #[error("out of memory")]
    Memory,
}
