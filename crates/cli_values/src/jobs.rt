//! Parses how many threads a campaign may use.

ghost use Rattle.std.specs.Prelude.{◌≡◌};
ghost use Rattle.cli_values.specs.JobCounts.{jobs_of};

use campaign_runs::Jobs;
use cli_args::read_number;

/// The form of `--jobs`, for its fault.
pub const JOBS: &str = "--jobs takes a decimal number from 1 to 64, as --jobs 4";

/// How many threads may do runs at a time: as suits the processors by default. `None` exactly if
/// the text isn't a decimal number from 1 to 64.
pub fn read_jobs(text: Option<&str>) -> Option<Jobs>
    ensures { result ≡ jobs_of text.entry }
{
    let Some(text) = text else {
        return Some(Jobs::ForProcessors);
    };
    match read_number(text, 64) {
        Ok(0) | Err(_) => None,
        Ok(most) => Some(Jobs::AtMost(most)),
    }
}
