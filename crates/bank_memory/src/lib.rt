//! One of sixteen banks of memory: its bytes, its marks and the log of its accesses.
#![tactic(auto)]

pub use bank::{AddFault, BANKS, Bank, each_bank_is_logged};
pub use stamp::{greatest_is_of_all, next_stamp, stamps_in_examples};

mod bank;
mod order;
mod stamp;
