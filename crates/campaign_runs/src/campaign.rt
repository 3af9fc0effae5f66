//! The runs of a campaign, and what it reports of them.

use crate::properties::Properties;
use crate::words::Words;
use cmd_form::Form;
use outcome::Expect;
use run_hangs::Hangs;
use sched_draw::Draw;

/// What a campaign reports of its runs.
#[derive(Clone, Copy, PartialEq, Eq)]
pub enum Report {
    /// A line for each run, while the runs go on.
    Lines,
    /// The lines of the runs that have failed, while the runs go on.
    Failures,
    /// A line for each outcome, once all runs are done.
    Summary,
    /// A line for each outcome, where runs also differ by the `a0` and `a1` of each hart that has
    /// exited, and by words of memory.
    Outcomes,
    /// A line for each outcome, where runs also differ by the cause and the place of each fault.
    Causes,
}

/// A campaign: a run for each of `count` seeds from `first` on.
#[derive(Clone, Copy, Drop)]
pub struct Campaign {
    /// The first seed.
    pub first: u64,
    /// Number of seeds.
    pub count: u64,
    /// Number of steps of each run.
    pub steps: u64,
    /// How a seed draws the choices of its run.
    pub draw: Draw,
    /// What is expected of each run.
    pub expect: Expect,
    /// The properties of one's own that each run is judged by, at its start and after each choice.
    pub properties: Properties,
    /// Whether it is decided of each run if it hangs, which is a failure.
    pub hangs: Hangs,
    /// The words of memory that outcomes also differ by; other reports have none.
    pub words: Words,
    /// What is reported of the runs.
    pub report: Report,
    /// In which form it is reported.
    pub form: Form,
}
