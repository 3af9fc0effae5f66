//! Why a command is refused.

use thiserror::Error;

/// Why a command is refused. Nothing has changed then. The text is the line that is shown, without
/// LF.
#[derive(Clone, Copy, Debug, PartialEq, Eq, Error)]
pub enum DebugFault {
    /// The line is no command, or it names a hart or an address that doesn't exist. It takes
    /// precedence over `PastEnd`.
    #[error("bad command")]
    BadCommand,
    /// A position is above the number of choices, or below 0.
    #[error("past end")]
    PastEnd,
    /// No symbol of the program has the name that stands for an address.
    #[error("no symbol")]
    NoSymbol,
    /// Several symbols have this name, at different addresses.
    #[error("several symbols")]
    SeveralSymbols,
    /// The host refused memory.
    #[error("out of memory")]
    Memory,
}
