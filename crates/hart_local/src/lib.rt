//! Steps that change only their hart, of code that no store can change, and the laws of runs of
//! them.
#![tactic(auto)]

pub use code::Code;
pub use laws::{code_stays, local_step_is_a_step, walks_are_one};
pub use run_laws::{
    local_choices_place_the_walked_hart, run_keeps_code, run_keeps_the_images_code,
};
pub use stepping::{Class, classify, local_step, local_steps};

mod code;
mod image_code;
mod laws;
mod run_laws;
mod stepping;
mod table;
