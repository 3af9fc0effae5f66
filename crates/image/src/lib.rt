//! Program images: the entry, and the segments that stand in memory at the start.
#![tactic(auto)]

pub use fault::ElfFault;
pub use image::{Image, image_of};
pub use laws::images_are_limited;
pub use rights::Rights;
pub use segment::Segment;
pub use space::{IMAGE_LIMIT, check_space, overlap_is_a_shared_address};
pub use span::Span;

mod fault;
mod image;
mod laws;
mod rights;
mod segment;
mod space;
mod span;
