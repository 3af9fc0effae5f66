//! A memory of pages, which copies share until one of them is written.
#![tactic(auto)]

pub use laws::{store_into_copy, store_into_original, store_number};
pub use number::Number;
pub use page_store::PageStore;

mod building;
mod chunk;
mod directory;
mod filling;
mod impls;
mod laws;
mod layout;
mod number;
mod page;
mod page_rights;
mod page_store;
mod reading;
mod sharing;
mod table;
mod wrapping;
mod writing;
