//! Counts the seeds of each ending.

ghost use Rattle.std.specs.Prelude.{◌≡◌, ◌==◌, ◌+◌, ◌<◌, ◌^◌, IfSome, OnOk, Some, [], length, slice_get};
ghost use Rattle.campaign_runs.specs.Ending.{ending_of};
ghost use Rattle.campaign_runs.specs.Tally.{add_seed, count_after, tally_rows, seeds_in};

use crate::ending::Ending;
use indexmap::IndexMap;
use std::alloc::{AllocError, Allocator};
use std::hash::{BuildHasherDefault, FoldHasher};

/// The seeds that have an ending.
#[derive(Clone, Copy, PartialEq, Eq)]
pub struct SeedCount {
    /// Number of seeds, at least 1.
    pub seeds: u64,
    /// The first seed.
    pub first: u64,
}

// The count of an ending with one more seed.
fn count_after(count: Option<SeedCount>, seed: u64) -> SeedCount
    requires { IfSome count (λ c. c.seeds + 1 < 2 ^ 64) }
    ensures { result ≡ count_after count seed }
{
    match count {
        None => SeedCount {
            seeds: 1,
            first: seed,
        },
        Some(count) => SeedCount {
            seeds: count.seeds + 1,
            first: count.first,
        },
    }
}

/// The number of seeds of each ending, and the first of them. Endings are in the order in which
/// they were first added.
#[derive(Drop)]
pub struct Tally<A: Allocator> {
    rows: IndexMap<Ending<A>, SeedCount, BuildHasherDefault<FoldHasher>, A>,
}

impl<A: Allocator + Copy> Tally<A> {
    /// A tally of no seed.
    pub fn new(alloc: A) -> Tally<A>
        ensures { tally_rows result ≡ [] }
    {
        Tally {
            rows: IndexMap::new(alloc),
        }
    }

    /// Counts a seed under its ending.
    pub fn add(&mut self, ending: Ending<A>, seed: u64) -> Result<(), AllocError>
        // The number of seeds fits in 64 bits.
        requires { seeds_in (tally_rows self.old) + 1 < 2 ^ 64 }
        ensures { OnOk result (tally_rows self.new
            ≡ add_seed (record { seed = seed; ending = ending_of ending }) (tally_rows self.old)) }
    {
        let count = count_after(self.rows.get(&ending).copied(), seed);
        self.rows.insert(ending, count)?;
        Ok(())
    }

    /// Number of endings.
    pub fn len(&self) -> usize
        ensures { result ≡ length (tally_rows self.now) }
    {
        self.rows.len()
    }

    /// Whether no seed is counted yet.
    pub fn is_empty(&self) -> bool
        ensures { result ≡ (length (tally_rows self.now) == 0) }
    {
        self.rows.is_empty()
    }

    /// The ending at an index in their order, from 0, with its seeds.
    pub fn row(&self, place: usize) -> (&Ending<A>, SeedCount)
        requires { place < length (tally_rows self.now) }
        ensures { slice_get (tally_rows self.now) place
            ≡ Some (record { ending = ending_of result.0.now; count = result.1 }) }
    {
        let (ending, count) = self.rows.get_index(place).unwrap();
        (ending, *count)
    }
}
