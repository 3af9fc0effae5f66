//! In which form a command answers: as text or as JSON.
#![tactic(auto)]

pub use form::Form;

mod form;
