//! The numbers of a campaign over schedules with a bounded number of preemptions.

ghost use Rattle.std.specs.Prelude.{◌≡◌};
ghost use Rattle.cli_values.specs.Bounds.{bounds_from, first_schedule_said, schedules_said};

use cli_args::{read_number, read_word};

/// These numbers.
#[derive(Clone, Copy, PartialEq, Eq)]
pub struct BoundedNumbers {
    /// The number of the first schedule.
    pub first: u64,
    /// The greatest number of schedules.
    pub count: u64,
    /// The greatest number of choices.
    pub steps: u64,
    /// The greatest number of preemptions.
    pub preemptions: u32,
}

/// The forms of these numbers, for their fault.
pub const BOUNDS: &str =
    "--first, --count, --steps and --preemptions take decimal numbers, first and count together below 2^64, \
     steps and preemptions below 2^32, as --preemptions 2 --steps 400";

// The first schedule, 0 by default.
fn read_first(text: Option<&str>) -> Option<u64>
    ensures { result ≡ first_schedule_said text.entry }
{
    let Some(text) = text else {
        return Some(0);
    };
    match read_number(text, u64::MAX - 1) {
        Ok(first) => Some(first),
        Err(_) => None,
    }
}

// The number of schedules from the first one on; all by default.
fn read_count(text: Option<&str>, first: u64) -> Option<u64>
    ensures { result ≡ schedules_said first text.entry }
{
    let most = u64::MAX - first;
    let Some(text) = text else {
        return Some(most);
    };
    match read_number(text, most) {
        Ok(count) => Some(count),
        Err(_) => None,
    }
}

/// The numbers of texts: the first schedule, 0 by default, the number of schedules, all by default,
/// and those of choices and preemptions below 2^32. `None` exactly if one is invalid or too large:
/// schedules have numbers below 2^64 - 1.
pub fn read_bounds(
    first: Option<&str>,
    count: Option<&str>,
    steps: &str,
    preemptions: &str,
) -> Option<BoundedNumbers>
    ensures { result ≡ bounds_from (first_schedule_said first.entry) count.entry
        steps.now preemptions.now }
{
    let first = read_first(first)?;
    let count = read_count(count, first)?;
    let steps = read_word(steps)?;
    let preemptions = read_word(preemptions)?;
    Some(BoundedNumbers {
        first,
        count,
        steps: u64::from(steps),
        preemptions,
    })
}
