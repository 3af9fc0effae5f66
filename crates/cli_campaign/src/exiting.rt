//! What is expected of a hart that still runs at the end.

use byte_io::Status;
use cli_orders::CampaignOrder;
use cli_report::{HANGS_OR_MUST_EXIT, bad_line};
use cmd_campaign::{Exit, Hangs};

/// The expectation with or without `--must-exit`.
pub(crate) fn exit_of(must_exit: bool) -> Exit {
    if must_exit { Exit::Must } else { Exit::May }
}

/// Whether a campaign's order asks which of its runs hang, or the status of an invalid line.
pub(crate) fn hangs_said<R: Print + Eprint>(
    rt: &R,
    order: &CampaignOrder,
) -> Result<Hangs, Status> {
    if !order.hangs {
        return Ok(Hangs::Unasked);
    }
    if order.must_exit {
        return Err(bad_line(rt, HANGS_OR_MUST_EXIT));
    }
    if order.preemptions.is_some() {
        return Err(bad_line(
            rt,
            "--hangs doesn't go with --preemptions, whose schedules end fairly: --must-exit tells which harts still run then",
        ));
    }
    Ok(Hangs::Asked)
}
