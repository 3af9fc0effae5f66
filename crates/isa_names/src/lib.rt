//! The names of registers and of fence sets, as assemblers write them; words and bytes as
//! hexadecimal digits.
#![tactic(auto)]

pub use fence::{FenceAccesses, accesses_name};
pub use register::{RegisterName, abi_name};
pub use word::{Byte, Word};

mod fence;
mod register;
mod word;
