//! A debugger over a list of choices: positions, moves forwards and backwards, breakpoints,
//! watches.
#![tactic(auto)]

pub use access::accessed;
pub use debugger::Debugger;
pub use fault::MoveFault;
pub use laws::{going_back_finds_the_greatest, going_on_finds_the_least};
pub use paged_machine::PagedMachine;
pub use points::Points;
pub use seeking::Target;
pub use step_view::{Event, StepView};
pub use stop::{AtBreak, Stop, WatchHit, WatchKind};
pub use touching::{reads, runs, touched};
pub use wanted::Wanted;
pub use watches::Watches;
pub use words::{byte_at, word_at};

mod access;
mod adding;
mod checkpoints;
mod debugger;
mod fault;
mod laws;
mod moves;
mod new;
mod paged_machine;
mod points;
mod seeking;
mod step_view;
mod stepping;
mod stop;
mod telling;
mod touching;
mod track;
mod wanted;
mod watches;
mod watching;
mod words;
