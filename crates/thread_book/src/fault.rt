//! The faults of a book.
use thiserror::Error;

/// The reason why a book gives no segment.
#[derive(Clone, Copy, Debug, PartialEq, Eq, Error)]
pub enum SegmentFault {
    /// The hart does not exist.
    #[error("segment fault NoHart")]
    NoHart,
    /// Out of memory.
    #[error("out of memory")]
    Memory,
}

/// The reason why a book does not take a segment; neither has then changed.
#[derive(Clone, Copy, Debug, PartialEq, Eq, Error)]
pub enum PresentFault {
    /// The book has no hart with the segment's number.
    #[error("present fault NoHart")]
    NoHart,
    /// The book's hart or its code differs from those that the segment began with.
    #[error("present fault Stale")]
    Stale,
    /// Out of memory.
    #[error("out of memory")]
    Memory,
}
