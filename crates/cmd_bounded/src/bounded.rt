//! The runs that are asked for.

use cmd_campaign::{Expect, Form, Properties, Report};

/// A run over each of at most `count` schedules from number `first` on, of those with at most
/// `preemptions` preemptions and `steps` choices.
#[derive(Clone, Copy, Drop)]
pub struct BoundedCampaign {
    /// The number of the first schedule.
    pub first: u64,
    /// The greatest number of schedules.
    pub count: u64,
    /// The greatest number of choices of a schedule, and the number of those of a fair tail.
    pub steps: u64,
    /// The greatest number of preemptions.
    pub preemptions: u32,
    /// What is expected of each run.
    pub expect: Expect,
    /// The properties of one's own that each run is judged by.
    pub properties: Properties,
    /// What is reported of the runs.
    pub report: Report,
    /// In which form it is reported.
    pub form: Form,
}
