//! The listing of a program, with the law that it is a source of the same text.
#![tactic(auto)]

pub use laws::a_listing_is_its_source;
pub use program::list;
pub use source::list_source;

mod laws;
mod program;
mod source;
