//! The word that each hart has reserved.
#![tactic(auto)]

pub use holders::Holders;
pub use laws::thirty_two_harts_at_most;
pub use reserve::{MAX_HARTS, Reserve};

mod holders;
mod laws;
mod reserve;
