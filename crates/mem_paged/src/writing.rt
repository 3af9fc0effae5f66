//! Writing to pages.
ghost use Rattle.std.specs.Prelude.{◌≡◌, ◌+◌, ◌*◌, ◌<◌, ◌≤◌, ◌%◌, length, vec_len, OnOk, OnErr, true};
ghost use Rattle.mem_store.specs.Access.{Stores};
ghost use Rattle.mem_flat.specs.Blocks.{spelled};
ghost use Rattle.mem_paged.specs.Number.{width_of, stored_value};
ghost use Rattle.mem_paged.specs.Store.{memory_of};
ghost use Rattle.mem_paged.specs.Table.{pages_in, pages_of};
ghost use Rattle.mem_paged.specs.Written.{Writes};

use crate::chunk::{CHUNK_PAGES, Chunk};
use crate::number::Number;
use crate::page::{PAGE_SIZE, Page};
use crate::page_store::PageStore;
use crate::table::Table;
use image::Rights;
use mem_store::StoreFault;
use std::alloc::{AllocError, Allocator};
use std::rc::Rc;

// Writes a number in a page. A shared page is copied first; the other owners keep theirs.
fn write<A: Allocator>(
    alloc: A,
    page: &mut Rc<Page, A>,
    at: usize,
    number: Number,
) -> Result<(), AllocError>
    requires { at + width_of number ≤ 4096 }
    ensures ok { OnOk result (page.new.value.bytes
        ≡ spelled (width_of number) page.old.value.bytes at (stored_value number)) }
    ensures err { OnErr result (page.new.value ≡ page.old.value) }
    ensures whole { OnOk result (length page.old.value.bytes ≡ 4096) }
{
    if let Some(page) = Rc::get_mut(page) {
        page.write(at, number);
        return Ok(());
    }
    let mut copy = **page;
    copy.write(at, number);
    *page = Rc::new(alloc, copy)?;
    Ok(())
}

impl<A: Allocator> Chunk<A> {
    // Writes a number in one of the pages, which is copied first if it is shared.
    fn write(&mut self, alloc: A, index: usize, at: usize, number: Number) -> Result<(), AllocError>
        requires index { index < 64 }
        requires room { at + width_of number ≤ 4096 }
        ensures { Writes (width_of number) index at (stored_value number)
            (pages_in self.old) (pages_in self.new) result }
    {
        match write(alloc, &mut self.pages[index], at, number) {
            Ok(()) => Ok(()),
            Err(AllocError) => Err(AllocError),
        }
    }
}

// Writes a number in one of a chunk's pages. A shared chunk is copied first; the other owners keep
// theirs.
fn write_chunk<A: Allocator + Copy>(
    alloc: A,
    chunk: &mut Rc<Chunk<A>, A>,
    index: usize,
    at: usize,
    number: Number,
) -> Result<(), AllocError>
    requires index { index < 64 }
    requires room { at + width_of number ≤ 4096 }
    ensures { Writes (width_of number) index at (stored_value number)
        (pages_in chunk.old.value) (pages_in chunk.new.value) result }
{
    if let Some(chunk) = Rc::get_mut(chunk) {
        return chunk.write(alloc, index, at, number);
    }
    let mut copy = chunk.copy(alloc)?;
    copy.write(alloc, index, at, number)?;
    *chunk = Rc::new(alloc, copy)?;
    Ok(())
}

impl<A: Allocator + Copy> Table<A> {
    /// Writes a number in the page at a place. That page and its chunk are copied first if they are
    /// shared. When out of memory nothing has changed.
    pub fn write(
        &mut self,
        alloc: A,
        place: usize,
        at: usize,
        number: Number,
    ) -> Result<(), AllocError>
        requires inside { place < 64 * vec_len self.old.chunks }
        requires room { at + width_of number ≤ 4096 }
        ensures writes { Writes (width_of number) place at (stored_value number)
            (pages_of self.old.chunks.items) (pages_of self.new.chunks.items) result }
        ensures count { vec_len self.new.chunks ≡ vec_len self.old.chunks }
    {
        let index = place % CHUNK_PAGES;
        match write_chunk(
            alloc,
            &mut self.chunks[place / CHUNK_PAGES],
            index,
            at,
            number,
        ) {
            Ok(()) => Ok(()),
            Err(AllocError) => Err(AllocError),
        }
    }
}

impl<A: Allocator + Copy> PageStore<A> {
    /// Stores a number at an address that is a multiple of its width; such a number is in one page.
    #[inline]
    pub fn put(&mut self, address: u32, number: Number) -> Result<(), StoreFault>
        requires { address % width_of number ≡ 0 }
        ensures { Stores true (width_of number) address (stored_value number)
            (memory_of self.old) (memory_of self.new) result }
    {
        let Some(place) = self.layout.directory.place(address / PAGE_SIZE as u32) else {
            return Err(StoreFault::Access);
        };
        let at = (address % PAGE_SIZE as u32) as usize;
        if !self.layout.rights[place].grants(at, number.width() as usize, Rights::WRITE) {
            return Err(StoreFault::Access);
        }
        match self.table.write(self.alloc, place, at, number) {
            Ok(()) => Ok(()),
            Err(AllocError) => Err(StoreFault::Memory),
        }
    }
}
