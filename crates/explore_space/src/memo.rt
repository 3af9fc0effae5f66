//! Answers that are kept once they are found.
ghost use Rattle.std.specs.Prelude.{◌≡◌, ◌≤◌, ℕ, IfOk, IfSome, length};
ghost use Rattle.explore_space.specs.Memo.{HasAnswer, KeepsOne};

use explore_table::{Rows, Table};
use std::alloc::{AllocError, Allocator};

// How many buckets a memo begins with.
const BUCKETS: usize = 64;

/// Answers under keys, both rows of words. In use are 4 bytes for each word, and 16 for each key.
#[derive(Drop)]
pub struct Memo<A: Allocator> {
    /// The keys.
    pub keys: Table<A>,
    /// For each key its answer.
    pub answers: Rows<A>,
    ghost even: { length answers ≤ length keys },
}

impl<A: Allocator + Copy> Memo<A> {
    /// No answer. Fails when out of memory.
    pub fn new(alloc: A) -> Result<Memo<A>, AllocError>
        ensures { IfOk result (λ memo. length memo.keys ≡ 0) }
    {
        Ok(Memo {
            keys: Table::new(alloc, BUCKETS)?,
            answers: Rows::new(alloc),
        })
    }

    /// The answer under a key, if it is kept.
    pub fn find(&self, key: &[u32]) -> Option<&[u32]>
        ensures { IfSome result (λ answer. (at : ℕ) × HasAnswer self.now.keys self.now.answers at key.now answer.now) }
    {
        let at = self.keys.find(key)?;
        if at >= self.answers.len() {
            return None;
        }
        Some(self.answers.row(at))
    }

    /// Keeps the answer under a key. The only error is out of memory.
    pub fn keep(&mut self, key: &[u32], answer: &[u32]) -> Result<(), AllocError>
        ensures { KeepsOne self.old.keys self.old.answers self.new.keys self.new.answers key.now answer.now }
    {
        let at = self.keys.add(key)?;
        if at == self.answers.len() {
            self.answers.push(answer)?;
        }
        Ok(())
    }
}
