//! Memory as a map from address to byte and rights, for any implementation.
#![tactic(auto)]

pub use from_image::FromImage;
pub use laws::copy_before_store;
pub use store::{AccessFault, FetchFault, Store, StoreFault};

mod from_image;
mod laws;
mod store;
