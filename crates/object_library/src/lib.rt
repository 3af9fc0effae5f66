//! The consensus objects: kinds, sources, images and rules, and the recognition of an image.
#![tactic(auto)]

pub use certifying::certify;
pub use entry::{source, words, zeros};
pub use images::make_image;
pub use judging::judge;
pub use kind::{KIND_NAMES, Kind};
pub use tables::table;
pub use verdict::Verdict;

mod certifying;
mod entry;
mod images;
mod judging;
mod kind;
mod tables;
mod text;
mod texts;
mod verdict;
