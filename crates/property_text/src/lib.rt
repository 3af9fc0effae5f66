//! The texts of properties: `WORD OP NUMBER` and `A..B`.
#![tactic(auto)]

pub use always::read_always;
pub use fault::PropertyFault;
pub use never_both::read_never_both;
pub use places::word_meant;

mod always;
mod comparison;
mod fault;
mod never_both;
mod number;
mod places;
