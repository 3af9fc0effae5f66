//! Parses a command line to an order, for all commands.
#![tactic(auto)]

pub use asm_line::AsmOrder;
pub use campaign_line::CampaignOrder;
pub use debug_line::DebugOrder;
pub use explore_line::ExploreOrder;
pub use file_line::{InfoOrder, ListOrder};
pub use lib_line::LibOrder;
pub use line::{Order, read_line};
pub use plan::read_plan;
pub use replay_line::ReplayOrder;
pub use schedule_line::ScheduleOrder;
pub use shrink_line::ShrinkOrder;
pub use threads_line::{Locks, ThreadsOrder};
pub use trace_line::TraceOrder;

mod asm_line;
mod campaign_line;
mod debug_line;
mod explore_line;
mod file_line;
mod lib_line;
mod line;
mod plan;
mod replay_line;
mod schedule_line;
mod shrink_line;
mod threads_line;
mod trace_line;
