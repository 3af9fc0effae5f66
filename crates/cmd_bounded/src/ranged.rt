//! The runs over a range of schedules.

ghost use Rattle.std.specs.Prelude.{◌≡◌, ◌+◌, ◌-◌, ◌<◌, ◌^◌, IfOk};
ghost use Rattle.machine.specs.Machine.{world};
ghost use Rattle.campaign_bounded.specs.Walk.{schedules_left};
ghost use Rattle.campaign_runs.specs.Tally.{seeds_in, tally_rows};
ghost use Rattle.cmd_bounded.specs.Told.{told_value, TellsRange};

use crate::bounded::BoundedCampaign;
use crate::run::next_end;
use crate::told::Told;
use byte_io::Progress;
use campaign_bounded::Schedules;
use machine::{Inputs, Machine};
use mem_store::FromImage;
use std::alloc::{AllocError, Allocator};

/// Does the runs over the next schedules of a walk, as many as are asked for or all that are left,
/// and returns how many. The only error is out of memory.
pub(crate) fn tell_range<S: FromImage<A>, A: Allocator + Copy>(
    alloc: A,
    walk: &mut Schedules<S, A>,
    start: &Machine<S, A>,
    inputs: &Inputs,
    campaign: BoundedCampaign,
    told: &mut Told<A>,
    progress: &mut impl Progress,
) -> Result<u64, AllocError>
    requires fits { campaign.first + campaign.count < 2 ^ 64 }
    requires none { seeds_in (tally_rows told.old.tally) ≡ 0 }
    ensures { IfOk result (λ count. TellsRange campaign (world S.memory start.now) inputs.now
        (schedules_left S.memory walk.old) count (told_value told.old) (told_value told.new)
        (schedules_left S.memory walk.new)) }
{
    'schedules: for done in 0..campaign.count {
        let Some(end) = next_end(alloc, walk, start, inputs, campaign, campaign.first + done)?
        else {
            return Ok(done);
        };
        told.add(campaign, end)?;
        progress.seeds_done(done + 1, told.bad);
    }
    Ok(campaign.count)
}
