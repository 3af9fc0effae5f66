//! The places of pages.
ghost use Rattle.std.specs.Prelude.{◌≡◌, ◌+◌, ◌<◌, ◌≤◌, [], length, IfOk, IfSome, OnOk};
ghost use Rattle.mem_paged.specs.Directory.{page_place, with_page};

use std::alloc::{AllocError, Allocator};
use std::marker::Model;

/// The existing pages, by number (address / 4096), and the place of each.
///
/// `index` proposes a place for each page from `first` on. A proposal counts only if the place's
/// owner is that page. So no two pages have one place, and an entry that was never set needs no
/// mark.
#[derive(Drop)]
pub struct Directory<A: Allocator> {
    first: u32,
    index: Vec<usize, A>,
    owners: Vec<u32, A>,
}

impl<A: Allocator> Model for Directory<A> {
    ghost use Rattle.mem_paged.specs.Directory.{DirectoryValue};

    ghost Value = { DirectoryValue };

    ghost view = { λ d. record {
      first = d.first;
      index = d.index.items;
      owners = d.owners.items;
    } };
}

impl<A: Allocator + Copy> Directory<A> {
    /// A directory without pages, with room for the `count` pages from `first` on. Fails when out
    /// of memory.
    pub fn new(alloc: A, first: u32, count: u32) -> Result<Directory<A>, AllocError>
        ensures { IfOk result (λ d. (d.first ≡ first) × (length d.index ≡ count) × (d.owners ≡ [])) }
    {
        Ok(Directory {
            first,
            index: vec![in alloc; 0; count as usize]?,
            owners: Vec::new(alloc),
        })
    }
}

impl<A: Allocator> Directory<A> {
    /// The place of a page, if the page exists.
    #[inline]
    pub fn place(&self, number: u32) -> Option<usize>
        ensures value { result ≡ page_place self.now number }
        ensures inside { IfSome result (λ k. k < length self.now.owners) }
    {
        if number < self.first {
            return None;
        }
        let place = *self.index.get((number - self.first) as usize)?;
        let owner = *self.owners.get(place)?;
        if owner == number { Some(place) } else { None }
    }

    /// Adds a page at the next place. Fails when out of memory.
    pub fn add(&mut self, number: u32) -> Result<usize, AllocError>
        requires from { self.old.first ≤ number }
        requires to { number < self.old.first + length self.old.index }
        ensures added { OnOk result (self.new ≡ with_page self.old number) }
        ensures place { IfOk result (λ k. k ≡ length self.old.owners) }
    {
        let place = self.owners.len();
        self.owners.push(number)?;
        self.index[(number - self.first) as usize] = place;
        Ok(place)
    }
}
