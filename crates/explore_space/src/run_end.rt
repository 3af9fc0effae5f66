//! How a run ends after which no hart runs.
ghost use Rattle.std.specs.Prelude.{◌≡◌, [], IfOk, OnOk, map};
ghost use Rattle.hart_step.specs.Hart.{hart_of};
ghost use Rattle.explore_space.specs.Ends.{AddsEnd, end_of, ends_in, returned_by};

use hart_step::Hart;
use indexmap::IndexSet;
use outcome::Outcome;
use std::alloc::{AllocError, Allocator};
use std::hash::{BuildHasherDefault, FoldHasher};

// The indices of a0 and a1 among the registers.
const A0: usize = 10;

const A1: usize = 11;

/// What a hart returned: its result registers.
#[derive(Clone, Copy, Debug, PartialEq, Eq, Hash)]
pub struct Returned {
    /// `a0`, which is x10.
    pub a0: u32,
    /// `a1`, which is x11.
    pub a1: u32,
}

/// How a run ends after which no hart runs.
#[derive(Drop)]
#[derive_where(Debug, PartialEq, Eq, Hash)]
pub struct RunEnd<A: Allocator> {
    /// Number of harts that ended in each way, and the verdict, if a rule is judged.
    pub outcome: Outcome,
    /// What each hart returned, in the order of their numbers.
    pub returned: Vec<Returned, A>,
}

/// What harts returned, in order. Fails when out of memory.
pub fn returned_by_harts<A: Allocator>(
    alloc: A,
    harts: &[Hart],
) -> Result<Vec<Returned, A>, AllocError>
    ensures { IfOk result (λ returned. returned.items ≡ map returned_by (map hart_of harts.now)) }
{
    let mut returned = Vec::new(alloc);
    'harts: for hart in harts {
        returned.push(Returned {
            a0: hart.registers[A0],
            a1: hart.registers[A1],
        })?;
    }
    Ok(returned)
}

/// Ends of runs, each once, in the order in which they were found.
#[derive(Drop)]
pub struct Ends<A: Allocator> {
    kept: IndexSet<RunEnd<A>, BuildHasherDefault<FoldHasher>, A>,
}

impl<A: Allocator + Copy> Ends<A> {
    /// No end.
    pub fn new(alloc: A) -> Ends<A>
        ensures { ends_in result ≡ [] }
    {
        Ends {
            kept: IndexSet::new(alloc),
        }
    }

    /// Keeps an end, if it isn't kept yet.
    pub fn add(&mut self, end: RunEnd<A>) -> Result<(), AllocError>
        ensures { OnOk result (AddsEnd (ends_in self.old) (end_of end) (ends_in self.new)) }
    {
        self.kept.insert(end)?;
        Ok(())
    }

    /// The ends.
    pub fn as_slice(&self) -> &[RunEnd<A>]
        ensures { map end_of result.now ≡ ends_in self.now }
    {
        self.kept.as_slice()
    }
}
