//! Rows of words, one behind another.
ghost use Rattle.std.specs.Prelude.{◌≡◌, ◌-◌, ◌<◌, ◌≤◌, ◌++◌, ◌∷◌, [], Some, OnErr, OnOk, drop, length, slice_get, take};
ghost use Rattle.explore_table.specs.Rows.{AreEnds, row_begin, rows_from};

use std::alloc::{AllocError, Allocator};
use std::marker::Model;

/// Rows of words in one run of memory: 4 bytes for each word, and 4 for each row. All rows together
/// have fewer than 2^32 words; one more is answered as want of memory.
#[derive(Drop)]
pub struct Rows<A: Allocator> {
    words: Vec<u32, A>,
    ends: Vec<u32, A>,
}

impl<A: Allocator> Model for Rows<A> {
    ghost use Rattle.std.specs.Prelude.{ℕ, List, length};
    ghost use Rattle.explore_table.specs.Rows.{AreEnds, rows_from};

    ghost Value = { List (List ℕ) };

    ghost view = { λ r. rows_from 0 r.ends.items r.words.items };

    ghost invariant = { λ r. AreEnds 0 r.ends.items (length r.words.items) };
}

// Where a row begins.
fn begin_of(ends: &[u32], number: usize) -> usize
    requires { number < length ends.now }
    ensures { result ≡ row_begin 0 ends.now number }
{
    if number == 0 {
        return 0;
    }
    ends[number - 1] as usize
}

// The words from one on, up to another.
fn part(words: &[u32], begin: usize, end: usize) -> &[u32]
    requires order { begin ≤ end }
    requires within { end ≤ length words.now }
    ensures { result.now ≡ take (end - begin) (drop begin words.now) }
{
    &words[begin..end]
}

// A row by its number.
fn row_at<'a>(words: &'a [u32], ends: &[u32], number: usize) -> &'a [u32]
    requires within { number < length ends.now }
    requires ends { AreEnds 0 ends.now (length words.now) }
    ensures { slice_get (rows_from 0 ends.now words.now) number ≡ Some result.now }
{
    let begin = begin_of(ends, number);
    let end = ends[number] as usize;
    part(words, begin, end)
}

// Appends a row's words and where it ends. A refusal changes nothing.
fn push_row<A: Allocator>(
    words: &mut Vec<u32, A>,
    ends: &mut Vec<u32, A>,
    row: &[u32],
) -> Result<(), AllocError>
    ensures words { OnOk result (words.new.items ≡ words.old.items ++ row.now) }
    ensures ends { OnOk result (ends.new.items ≡ ends.old.items ++ length words.new.items ∷ []) }
    ensures no_words { OnErr result (words.new.items ≡ words.old.items) }
    ensures no_ends { OnErr result (ends.new.items ≡ ends.old.items) }
{
    let end = words.len() + row.len();
    if end > 0xffff_ffff {
        return Err(AllocError);
    }
    ends.push(end as u32)?;
    if words.extend_from_slice(row).is_err() {
        ends.pop();
        return Err(AllocError);
    }
    Ok(())
}

impl<A: Allocator> Rows<A> {
    /// No row.
    pub fn new(alloc: A) -> Rows<A>
    where
        A: Copy,
        ensures { result ≡ [] }
    {
        Rows {
            words: Vec::new(alloc),
            ends: Vec::new(alloc),
        }
    }

    /// How many rows there are.
    pub fn len(&self) -> usize
        ensures { result ≡ length self.now }
    {
        let _ = &self.words;
        self.ends.len()
    }

    /// A row by its number.
    pub fn row(&self, number: usize) -> &[u32]
        requires { number < length self.now }
        ensures { slice_get self.now number ≡ Some result.now }
    {
        row_at(&self.words, &self.ends, number)
    }

    /// One row more. A refusal changes nothing.
    pub fn push(&mut self, row: &[u32]) -> Result<(), AllocError>
        ensures pushed { OnOk result (self.new ≡ self.old ++ row.now ∷ []) }
        ensures unchanged { OnErr result (self.new ≡ self.old) }
    {
        push_row(&mut self.words, &mut self.ends, row)
    }
}
