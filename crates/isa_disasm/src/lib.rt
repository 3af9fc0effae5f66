//! Instruction words and images as canonical assembly lines.
#![tactic(auto)]

pub use image_lines::list_image;
pub use line::{Line, line_of};
pub use lines::push_listing;

mod buffer;
mod digits;
mod image_lines;
mod line;
mod lines;
mod shapes;
