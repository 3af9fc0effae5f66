//! The time after which a campaign ends.

ghost use Rattle.std.specs.Prelude.{◌≡◌, None};

use byte_io::Status;
use cli_orders::CampaignOrder;
use cli_report::bad_line;
use cli_values::{SECONDS, read_seconds};
use cmd_campaign::{Finished, Limit};
use std::rt::Clock;
use std::time::Instant;

/// How many seconds a campaign's order gives it, if it says so, or the status of an invalid line.
pub(crate) fn seconds_said<R: Print + Eprint>(
    rt: &R,
    order: &CampaignOrder,
) -> Result<Option<u64>, Status> {
    let Some(text) = order.seconds else {
        return Ok(None);
    };
    let Some(seconds) = read_seconds(text) else {
        return Err(bad_line(rt, SECONDS));
    };
    if order.preemptions.is_some() {
        return Err(bad_line(
            rt,
            "--seconds doesn't go with --preemptions, which says what its schedules cover: --count runs fewer of them",
        ));
    }
    Ok(Some(seconds))
}

/// Ends a campaign once its seconds are over, if it was given some.
#[derive(Drop)]
pub(crate) struct Seconds<'a, R> {
    rt: &'a R,
    seconds: Option<u64>,
    // When the campaign began, if the clock tells.
    began: Option<Instant>,
}

impl<'a, R: Clock> Seconds<'a, R> {
    /// They begin now.
    pub(crate) fn new(rt: &'a R, seconds: Option<u64>) -> Seconds<'a, R>
        ensures { result.seconds ≡ seconds }
    {
        Seconds {
            rt,
            seconds,
            began: Instant::now(rt).ok(),
        }
    }
}

impl<'a, R: Clock> Limit for Seconds<'a, R> {
    ghost never = { λ s. s.seconds ≡ None };

    fn is_over(&mut self) -> bool {
        let (Some(seconds), Some(began)) = (self.seconds, self.began) else {
            return false;
        };
        match began.elapsed(self.rt) {
            Ok(elapsed) => elapsed.as_secs() >= seconds,
            Err(_) => false,
        }
    }
}

/// Says how many of `count` seeds are done, if the time ended the campaign before all were. One
/// that ends at its first failure was ended by that.
pub(crate) fn say_seeds<R: Eprint>(rt: &R, order: &CampaignOrder, count: u64, finished: Finished) {
    let seeds = finished.seeds;
    let is_at_failure = order.until_failure && finished.first_failure.is_some();
    if seeds < count && !is_at_failure {
        // If standard error is closed, nobody sees it.
        let _ = eprintln!(rt; "rvcons: {seeds} of {count} seeds are done; the time is up");
    }
}
