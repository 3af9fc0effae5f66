//! In which form a command answers, and the values of JSON that more than one command prints.
#![tactic(auto)]

pub use cmd_form::Form;
pub use counts::push_counts;
pub use harts::push_harts;
pub use members::{
    push_count_member, push_key, push_name, push_name_member, push_next_number, push_number_member,
    push_string_member,
};
pub use verdict::push_verdict;

mod counts;
mod harts;
mod members;
mod verdict;
