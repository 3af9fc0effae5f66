//! What ends a campaign before all of its seeds are done.

ghost use Rattle.std.specs.Prelude.{◌≡◌, ◌++◌, ◌+◌, ◌<◌, ◌≤◌, ◌^◌, [], false, IfSome, MatchOption};
ghost use Rattle.std.specs.List.{range_with_len};
ghost use Rattle.campaign_runs.specs.Seeds.{seeds_left};

use campaign_runs::{Block, Seeds};

/// Says when a campaign is to end.
pub trait Limit {
    /// It never ends one.
    ghost never: { Self → Type 0 };

    /// Whether a campaign is to end now. It is asked after each block of seeds.
    fn is_over(&mut self) -> bool
        ensures { never self.old → (result ≡ false) × never self.new };
}

/// Ends no campaign.
#[derive(Clone, Copy)]
pub struct Unlimited;

impl Limit for Unlimited {
    ghost never = { λ s. Unit {0} };

    fn is_over(&mut self) -> bool {
        false
    }
}

/// The next block of a campaign's seeds, of which so many are done, for runs of `steps` steps;
/// `None` if no seed is left, or the limit is over behind the first block.
pub(crate) fn next_block<L: Limit>(
    seeds: &mut Seeds,
    steps: u64,
    done: u64,
    limit: &mut L,
) -> Option<Block>
    ensures order { MatchOption result (L.never limit.old → seeds_left seeds.old ≡ [])
        (λ block. seeds_left seeds.old
        ≡ range_with_len block.first block.count ++ seeds_left seeds.new) }
    ensures block { IfSome result (λ block.
        (0 < block.count) × (block.first + block.count ≤ 2 ^ 64)) }
    ensures still { L.never limit.old → L.never limit.new }
{
    if done > 0 && limit.is_over() {
        return None;
    }
    seeds.next_block(steps)
}
