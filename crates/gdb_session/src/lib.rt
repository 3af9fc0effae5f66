//! The state of a session with GDB, and its answers to requests and moves.
#![tactic(auto)]

pub use answer::{Next, answer_plain};
pub use laws::chosen_harts_are_there;
pub use movement::Move;
pub use moves::answer_move;
pub use returning::home;
pub use selected::Selected;
pub use talk::Talk;

mod answer;
mod asked;
mod changes;
mod fixed;
mod harts;
mod keep;
mod laws;
mod memory;
mod movement;
mod moves;
mod registers;
mod resume;
mod returning;
mod selected;
mod stops;
mod talk;
mod threads;
