//! Shared values.
ghost use Rattle.std.specs.Prelude.{◌≡◌, IfOk, vec_len, length};
ghost use Rattle.mem_paged.specs.Table.{pages_in, pages_of, shared_values};

use crate::chunk::Chunk;
use crate::page::Page;
use crate::table::Table;
use std::alloc::{AllocError, Allocator};
use std::rc::Rc;

/// The same values, shared. Fails when out of memory.
pub fn share<T: Drop, A: Allocator + Copy>(
    alloc: A,
    items: &[Rc<T, A>],
) -> Result<Vec<Rc<T, A>, A>, AllocError>
    ensures values { IfOk result (λ cs. shared_values cs.items ≡ shared_values items.now) }
    ensures len { IfOk result (λ cs. vec_len cs ≡ length items.now) }
{
    let mut copies = Vec::with_capacity(alloc, items.len())?;
    'items: for item in items {
        copies.push(item.clone()?)?;
    }
    Ok(copies)
}

/// A chunk that shares these pages. Fails when out of memory.
pub fn chunk_of<A: Allocator + Copy>(
    alloc: A,
    pages: &[Rc<Page, A>],
) -> Result<Chunk<A>, AllocError>
    requires { length pages.now ≡ 64 }
    ensures { IfOk result (λ c. pages_in c ≡ shared_values pages.now) }
{
    let pages = share(alloc, pages)?;
    Ok(Chunk { pages })
}

impl<A: Allocator + Copy> Chunk<A> {
    /// A copy of the chunk that shares its pages. Fails when out of memory.
    pub fn copy(&self, alloc: A) -> Result<Chunk<A>, AllocError>
        ensures { IfOk result (λ c. pages_in c ≡ pages_in self.now) }
    {
        let pages = share(alloc, &self.pages)?;
        Ok(Chunk { pages })
    }
}

impl<A: Allocator + Copy> Table<A> {
    /// A copy of the table that shares its chunks. Fails when out of memory.
    pub fn copy(&self, alloc: A) -> Result<Table<A>, AllocError>
        ensures pages { IfOk result (λ t.
            pages_of t.chunks.items ≡ pages_of self.now.chunks.items) }
        ensures count { IfOk result (λ t. vec_len t.chunks ≡ vec_len self.now.chunks) }
    {
        let chunks = share(alloc, &self.chunks)?;
        Ok(Table { chunks })
    }
}
