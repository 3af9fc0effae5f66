//! The numbers of a campaign, and what it reports.

ghost use Rattle.std.specs.Prelude.{◌≡◌};
ghost use Rattle.cli_values.specs.CampaignPlans.{numbers_of};
ghost use Rattle.cli_values.specs.Reports.{report_of};

use campaign_runs::Report;
use cli_args::read_number;

/// The numbers of a campaign.
#[derive(Clone, Copy, PartialEq, Eq)]
pub struct SeedNumbers {
    /// The first seed.
    pub first: u64,
    /// Number of seeds.
    pub count: u64,
    /// Number of steps of each run.
    pub steps: u64,
}

/// The numbers of three decimal texts: the first seed, the number of seeds, and the number of steps
/// for each. `None` exactly if one is invalid or too large: the seeds end by 2^64, and the steps
/// are below 2^32.
pub fn read_seed_numbers(first: &str, count: &str, steps: &str) -> Option<SeedNumbers>
    ensures { result ≡ numbers_of first.now count.now steps.now }
{
    let Ok(first) = read_number(first, u64::MAX) else {
        return None;
    };
    let Ok(count) = read_number(count, u64::MAX) else {
        return None;
    };
    let Ok(steps) = read_number(steps, u64::from(u32::MAX)) else {
        return None;
    };
    if count > 0 && first > u64::MAX - (count - 1) {
        return None;
    }
    Some(SeedNumbers {
        first,
        count,
        steps,
    })
}

/// What is reported. `None` exactly if the options don't go together: failures and a summary, or
/// outcomes or causes without a summary or with one another.
pub fn read_report(failures: bool, summary: bool, outcomes: bool, by_cause: bool) -> Option<Report>
    ensures { result ≡ report_of failures summary outcomes by_cause }
{
    match (failures, summary, outcomes, by_cause) {
        (false, false, false, false) => Some(Report::Lines),
        (true, false, false, false) => Some(Report::Failures),
        (false, true, false, false) => Some(Report::Summary),
        (false, true, true, false) => Some(Report::Outcomes),
        (false, true, false, true) => Some(Report::Causes),
        _ => None,
    }
}
