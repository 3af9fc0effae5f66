//! Where the change points of schedules by priorities lie.

ghost use Rattle.std.specs.Prelude.{◌≡◌, ◌<◌};
ghost use Rattle.sched_draw.specs.ChangePoints.{places_of};

use crate::steps::Steps;

/// At which steps of a run the change points of a schedule by priorities are drawn. No other
/// schedule has change points.
#[derive(Clone, Copy, Drop)]
pub enum ChangePoints {
    /// At any step.
    Anywhere,
    /// At any of the first steps, so many.
    Within(Steps),
}

impl ChangePoints {
    /// At how many steps of a run, from the first on, they are drawn; for a run of no step as for
    /// one of a single step.
    pub(crate) fn places(self, steps: u64) -> u64
        ensures is { result ≡ places_of self steps }
        ensures some { 0 < result }
    {
        let steps = steps.max(1);
        match self {
            ChangePoints::Anywhere => steps,
            ChangePoints::Within(first) => first.count().min(steps),
        }
    }
}
