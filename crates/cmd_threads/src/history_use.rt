//! Whether the history of a run is used.

/// Whether the history of a run is used.
#[derive(Clone, Copy, PartialEq, Eq)]
pub enum HistoryUse {
    /// It is written or otherwise read.
    Read,
    /// It isn't read, and none is made.
    Unread,
}
