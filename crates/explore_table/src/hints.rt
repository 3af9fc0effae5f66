//! Where parts may be found again.
ghost use Rattle.std.specs.Prelude.{ℕ, List, IfNone, OnOk};
ghost use Rattle.std.specs.List.{Contains};

use crate::table::Table;
use std::alloc::{AllocError, Allocator};
use std::marker::Model;

// How many buckets hints begin with.
const BUCKETS: usize = 64;

/// A number for each hash that was given one. Which number is a hint, which promises nothing:
/// whoever asks looks at what it leads to. Whether a hash was given one is promised.
#[derive(Drop)]
pub struct Hints<A: Allocator> {
    hashes: Table<A>,
    numbers: Vec<usize, A>,
}

impl<A: Allocator> Model for Hints<A> {
    ghost use Rattle.std.specs.Prelude.{◌≡◌, ℕ, List, length};

    ghost Value = { List (List ℕ) };

    ghost view = { λ h. h.hashes };

    ghost invariant = { λ h. length h.numbers.items ≡ length h.hashes };
}

impl<A: Allocator + Copy> Hints<A> {
    /// No hint. Fails when out of memory.
    pub fn new(alloc: A) -> Result<Hints<A>, AllocError> {
        Ok(Hints {
            hashes: Table::new(alloc, BUCKETS)?,
            numbers: Vec::new(alloc),
        })
    }

    /// The last number that a hash was given; none if it was given none.
    pub fn find(&self, hash: [u32; 2]) -> Option<usize>
        ensures absent { IfNone result (Contains self.now hash → ⊥) }
    {
        let at = self.hashes.find(&hash)?;
        Some(self.numbers[at])
    }

    /// Gives a hash a number. Fails when out of memory, which changes nothing.
    pub fn put(&mut self, hash: [u32; 2], number: usize) -> Result<(), AllocError>
        ensures put { OnOk result (Contains self.new hash) }
        ensures others { (other : List ℕ) → Contains self.old other → Contains self.new other }
    {
        if let Some(at) = self.hashes.find(&hash) {
            self.numbers[at] = number;
            return Ok(());
        }
        self.numbers.push(number)?;
        if self.hashes.add(&hash).is_err() {
            self.numbers.pop();
            return Err(AllocError);
        }
        Ok(())
    }
}
