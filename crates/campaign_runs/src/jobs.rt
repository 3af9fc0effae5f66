//! How many threads do the runs of a block of seeds.

ghost use Rattle.campaign_runs.specs.Jobs.{AreFew};

/// How many threads may do runs at a time.
#[derive(Clone, Copy, PartialEq, Eq)]
pub enum Jobs {
    /// As many as suit the processors.
    ForProcessors,
    /// At most so many; 0 is as 1, the caller's thread alone.
    AtMost(u64),
}

impl Jobs {
    // The least number of seeds that a thread takes, of so many.
    pub(crate) fn least_piece(self, seeds: u64) -> usize
        ensures { AreFew self seeds result }
    {
        match self {
            // One run is worth a thread.
            Jobs::ForProcessors => 1,
            Jobs::AtMost(most) => seeds.div_ceil(most.max(1)) as usize,
        }
    }
}
