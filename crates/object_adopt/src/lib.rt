//! Adopt-commit by loads and stores, once and four times over: the images, what holds in all of
//! their runs, and the rule of one object.
#![tactic(auto)]

pub use adopt::{adopt_image, adopt_in_every_run};
pub use passage::{images_have_objects, object_in_every_passage};
pub use rounds::{rounds_image, rounds_in_every_run};

mod adopt;
mod passage;
mod rounds;
