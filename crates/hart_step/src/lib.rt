//! One step of one hart, over any memory.
#![tactic(auto)]

pub use data_access::{Access, AccessKind, access_by};
pub use examples::{
    atomics_in_examples, conditional_stores_in_examples, jumps_in_examples, loads_in_examples,
    reservations_in_examples, shifts_in_examples,
};
pub use hart::{Cause, Hart, HartState};
pub use laws::{every_hart_has_zero, step_keeps_alignment, step_keeps_unwritable, step_keeps_zero};
pub use local::{execute_local, is_local};
pub use locality::{access_is_in_one_word, local_instruction_is_its_harts, step_is_local};
pub use numbers::{arithmetic_shift_is_floor_division, signed_order_is_that_of_integers};
pub use step::step_hart;

mod access;
mod data_access;
mod examples;
mod hart;
mod laws;
mod local;
mod locality;
mod memory_instructions;
mod numbers;
mod registers;
mod step;
mod values;
