//! A machine with the history that leads to its world, and the segments that it takes in.
#![tactic(auto)]

pub use book::{Book, each_book_is_sound};
pub use fault::{PresentFault, SegmentFault};
pub use segment::Segment;

mod book;
mod fault;
mod presenting;
mod sameness;
mod segment;
