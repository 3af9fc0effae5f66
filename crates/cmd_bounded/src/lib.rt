//! The engine of `campaign --preemptions`: the run over each schedule with a bounded number of
//! preemptions, as text.
#![tactic(auto)]

pub use bounded::BoundedCampaign;
pub use choices::bounded_choices_engine;
pub use cmd_campaign::{Exit, Expect, Finished, Form, Properties, Report};
pub use engine::bounded_engine;
pub use until::bounded_until_engine;

mod bounded;
mod choices;
mod covered;
mod engine;
mod lines;
mod ranged;
mod rows;
mod run;
mod told;
mod until;
