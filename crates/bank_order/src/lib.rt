//! Merges the segments of all harts to one list, in the order of their stamps, and gives its
//! choices.
#![tactic(auto)]

pub use choices::choices_in_order;
pub use rising::is_rising;
pub use segment::LogSegment;
pub use weaving::in_order;

mod choices;
mod rising;
mod segment;
mod weaving;
