//! The table.
ghost use Rattle.std.specs.Prelude.{◌≡◌, ◌<◌, ◌++◌, ◌⊎◌, [], ◌∷◌, Some, IfOk, IfSome, IfNone, OnErr, length, slice_get, slice_index};
ghost use Rattle.std.specs.List.{Contains};

use crate::finding::find_linked;
use crate::hash::bucket_of;
use crate::linking::link_all;
use crate::rows::Rows;
use std::alloc::{AllocError, Allocator};
use std::marker::Model;

/// Keys in the order in which they came, each kept once. A key is found by its bucket and then by
/// its words, so no answer rests on where a key is put. In use are 4 bytes for each word of a key,
/// 8 for each key and 4 for each bucket. There are fewer than 2^32 keys, and all together have fewer
/// than 2^32 words; one more is answered as want of memory.
#[derive(Drop)]
pub struct Table<A: Allocator> {
    rows: Rows<A>,
    // For each key one more than the number of the last key before it in its bucket, or 0 where
    // there is none.
    befores: Vec<u32, A>,
    // For each bucket the same of its last key.
    heads: Vec<u32, A>,
}

impl<A: Allocator> Model for Table<A> {
    ghost use Rattle.std.specs.Prelude.{ℕ, List};
    ghost use Rattle.explore_table.specs.Links.{IsLinked};

    ghost Value = { List (List ℕ) };

    ghost view = { λ t. t.rows };

    ghost invariant = { λ t. IsLinked t.rows t.befores.items t.heads.items };
}

impl<A: Allocator> Table<A> {
    /// No key, with room for so many buckets.
    pub fn new(alloc: A, buckets: usize) -> Result<Table<A>, AllocError>
    where
        A: Copy,
        requires { 0 < buckets }
        ensures { IfOk result (λ t. t ≡ []) }
    {
        let mut heads = Vec::with_capacity(alloc, buckets)?;
        heads.resize(buckets, 0)?;
        Ok(Table {
            rows: Rows::new(alloc),
            befores: Vec::new(alloc),
            heads,
        })
    }

    /// How many keys there are.
    pub fn len(&self) -> usize
        ensures { result ≡ length self.now }
    {
        let _ = &self.heads;
        self.rows.len()
    }

    /// A key by its number.
    pub fn key(&self, number: usize) -> &[u32]
        requires { number < length self.now }
        ensures { slice_get self.now number ≡ Some result.now }
    {
        let _ = &self.heads;
        self.rows.row(number)
    }

    /// The number of a key, if it is kept.
    pub fn find(&self, key: &[u32]) -> Option<usize>
        ensures found { IfSome result (λ number. slice_get self.now number ≡ Some key.now) }
        ensures absent { IfNone result (Contains self.now key.now → ⊥) }
    {
        find_linked(&self.rows, &self.befores, &self.heads, key)
    }

    // Doubles the number of buckets where there are as many keys, so that few share one. A refusal
    // changes nothing.
    fn make_room(&mut self) -> Result<(), AllocError>
        ensures { self.new ≡ self.old }
    {
        if self.rows.len() < self.heads.len() {
            return Ok(());
        }
        let buckets = self.heads.len().saturating_mul(2);
        self.heads.resize(buckets, 0)?;
        self.heads.fill(0);
        link_all(&self.rows, &mut self.befores, &mut self.heads);
        Ok(())
    }

    /// The number of a key, which is kept from now on. A refusal changes nothing.
    pub fn add(&mut self, key: &[u32]) -> Result<usize, AllocError>
        ensures number { IfOk result (λ number.
            ((slice_get self.old number ≡ Some key.now) × (self.new ≡ self.old))
            ⊎ ((number ≡ length self.old) × (Contains self.old key.now → ⊥)
            × (self.new ≡ self.old ++ key.now ∷ []))) }
        ensures err { OnErr result (self.new ≡ self.old) }
    {
        if let Some(number) = self.find(key) {
            return Ok(number);
        }
        self.make_room()?;
        let number = self.rows.len();
        if number >= 0xffff_ffff {
            return Err(AllocError);
        }
        let buckets = self.heads.len();
        let bucket = bucket_of(key, buckets);
        let before = self.heads[bucket];
        self.befores.push(before)?;
        if self.rows.push(key).is_err() {
            self.befores.pop();
            return Err(AllocError);
        }
        self.heads[bucket] = (number + 1) as u32;
        Ok(number)
    }
}
