//! The seeds of a campaign, in blocks.

ghost use Rattle.std.specs.Prelude.{◌≡◌, ◌++◌, ◌+◌, ◌<◌, ◌≤◌, ◌^◌, [], MatchOption, IfSome, length, min};
ghost use Rattle.std.specs.List.{range_with_len};
ghost use Rattle.campaign_runs.specs.Blocks.{block_seeds};

/// The greatest number of seeds of a block: the results of their runs take 0.3 MB, and 1 MB more if
/// they include those of 32 harts.
pub const MOST_SEEDS: u64 = 4096;

/// The least number of seeds of a block, if as many are left: enough to keep the processors at
/// work.
pub const LEAST_SEEDS: u64 = 64;

/// About the number of steps of a block's runs together, within these limits. At a block's end
/// processors wait for the last run, so longer blocks waste a smaller part of the time; 2^26 steps
/// take some tenths of a second.
pub const BLOCK_STEPS: u64 = 1 << 26;

/// Consecutive seeds.
#[derive(Clone, Copy, PartialEq, Eq)]
pub struct Block {
    /// The first seed.
    pub first: u64,
    /// Number of seeds, at least 1.
    pub count: u64,
}

/// The seeds that a campaign has still to run. They are taken in order, block by block.
#[derive(Clone, Copy, Drop)]
pub struct Seeds {
    first: u64,
    count: u64,
    done: u64,
    ghost within: { (done ≤ count) × (first + count ≤ 2 ^ 64) },
}

impl Seeds {
    ghost use Rattle.campaign_runs.specs.Seeds.{seeds_left};

    /// `count` seeds from `first` on.
    pub fn new(first: u64, count: u64) -> Seeds
        requires { first + count ≤ 2 ^ 64 }
        ensures { seeds_left result ≡ range_with_len first count }
    {
        Seeds {
            first,
            count,
            done: 0,
        }
    }

    /// The next block of seeds for runs of `steps` steps; `None` if no seed is left. The longer the
    /// runs, the smaller the block, so that results come early.
    #[tactic(auto, using(crate::proofs::SeedLemmas::seeds_none, crate::proofs::SeedLemmas::seeds_split, crate::proofs::SeedLemmas::seeds_size))]
    pub fn next_block(&mut self, steps: u64) -> Option<Block>
        ensures order { MatchOption result (seeds_left self.old ≡ [])
            (λ block. seeds_left self.old ≡ range_with_len block.first block.count ++ seeds_left self.new) }
        ensures block { MatchOption result (seeds_left self.new ≡ [])
            (λ block. (0 < block.count) × (block.first + block.count ≤ 2 ^ 64)) }
        ensures size { IfSome result (λ block. block.count
            ≡ min (length (seeds_left self.old)) (block_seeds steps)) }
    {
        let left = self.count - self.done;
        if left == 0 {
            return None;
        }
        let count = left.min(block_seeds(steps));
        let first = self.first + self.done;
        self.done += count;
        Some(Block { first, count })
    }
}

// Number of seeds of a block, if as many are left.
fn block_seeds(steps: u64) -> u64
    ensures value { result ≡ block_seeds steps }
    ensures some { 0 < result }
{
    (BLOCK_STEPS / steps.max(1)).clamp(LEAST_SEEDS, MOST_SEEDS)
}
