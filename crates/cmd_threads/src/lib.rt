//! The engines of `threads` and of `threads --banked`.
#![tactic(auto)]

pub use banked::banked_engine;
pub use history_use::HistoryUse;
pub use laws::objects_on_threads_exit;
pub use threads::{ThreadsAnswer, ThreadsTask, threads_engine};

mod answer;
mod banked;
mod history_use;
mod laws;
mod threads;
mod unread;
