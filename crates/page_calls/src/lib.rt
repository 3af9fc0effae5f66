//! What a page calls: the commands over bytes in memory.
#![tactic(auto)]

pub use campaigns::campaign_call;
pub use every::explore_call;
pub use reply::{Reply, Told};
pub use running::{run_call, trace_call};
pub use schedules::{schedule_call, shrink_call};
pub use sessions::debug_call;
pub use showing::file_call;
pub use sources::{assemble_call, listing_call};
pub use words::explain_call;

mod campaigns;
mod every;
mod reply;
mod running;
mod schedules;
mod sessions;
mod showing;
mod sources;
mod words;
