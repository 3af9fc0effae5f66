//! The choices to write.

ghost use Rattle.std.specs.Prelude.{◌≡◌, ◌≤◌, true, false, MatchResult};
ghost use Rattle.hart_reservations.specs.Limit.{most_harts};
ghost use Rattle.sched_draw.specs.Schedules.{follows_run, is_of_harts};

use hart_reservations::MAX_HARTS;
use sched_draw::{Draw, Schedule};
use thiserror::Error;

/// Why there is no plan. The text of each is printed after `rvcons: ` on standard error.
#[derive(Clone, Copy, Debug, PartialEq, Eq, Error)]
pub enum PlanFault {
    /// The schedule is for no hart, or for more harts than a machine has.
    #[error("--harts takes a decimal number from 1 to 32, as --harts 2")]
    BadHarts,
    /// The hart that is to take all steps doesn't exist.
    #[error("--only takes the number of a hart, from 0 on and below that of --harts")]
    NoHart,
}

/// A number of choices of a schedule that is the same in each run, for 1 to 32 harts.
#[derive(Clone, Copy, Drop)]
pub struct Plan {
    pub(crate) harts: u32,
    pub(crate) steps: u32,
    pub(crate) schedule: Schedule,
    ghost few: { harts ≤ most_harts },
    ghost of: { is_of_harts schedule harts ≡ true },
    ghost same: { follows_run schedule ≡ false },
}

impl Plan {
    ghost use Rattle.std.specs.Prelude.{◌≡◌, ◌≤◌, false, MatchResult};
    ghost use Rattle.sched_draw.specs.Schedules.{follows_run};
    ghost use Rattle.cmd_schedule.specs.Plans.{IsPlanOf, RefusesSchedule};

    /// A plan of `steps` steps of `harts` harts. The number of harts is checked first.
    pub fn new(harts: u32, steps: u32, schedule: Schedule) -> Result<Plan, PlanFault>
        requires { follows_run schedule ≡ false }
        ensures { MatchResult result (λ plan. IsPlanOf harts steps schedule plan)
            (λ fault. RefusesSchedule harts schedule fault) }
    {
        if harts == 0 || harts as usize > MAX_HARTS {
            return Err(PlanFault::BadHarts);
        }
        if !schedule.is_of_harts(harts) {
            return Err(PlanFault::NoHart);
        }
        Ok(Plan {
            harts,
            steps,
            schedule,
        })
    }
}

/// The choices that a seed draws in a run.
#[derive(Clone, Copy, Drop)]
pub struct SeedPlan {
    /// How the seed draws them.
    pub draw: Draw,
    /// Number of choices.
    pub steps: u64,
    /// The seed.
    pub seed: u64,
}
