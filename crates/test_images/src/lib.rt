//! Images, files and programs for tests, and plans of refusals and gates for tests of harts on
//! threads.
#![tactic(auto)]

pub use files::{EXITS, EXITS_FACTS, EXITS_LISTING, object_file};
pub use gates::{Holding, Meeting, Place};
pub use images::{
    CONDITIONAL, PROGRAM_START, Part, STORES_INPUT, bytes_of, checked_image, image_of, segments_of,
    writable_program,
};
pub use programs::{Program, STORE_OVER_NEXT, one_value, pairs_of, plan_of, program_image};

mod files;
mod gates;
mod images;
mod programs;
