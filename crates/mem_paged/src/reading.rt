//! Reading from pages.
ghost use Rattle.std.specs.Prelude.{◌≡◌, ◌<◌, ◌≤◌, ◌*◌, ◌%◌, true, false, Some, MatchOption, slice_get, vec_len};
ghost use Rattle.mem_store.specs.Memory.{grants, granted, around, to_write};
ghost use Rattle.mem_store.specs.Access.{peeked};
ghost use Rattle.mem_flat.specs.Blocks.{number_if};
ghost use Rattle.mem_paged.specs.Store.{memory_of};
ghost use Rattle.mem_paged.specs.Table.{pages_of};

use crate::chunk::CHUNK_PAGES;
use crate::page::{PAGE_SIZE, Page};
use crate::page_store::PageStore;
use crate::table::Table;
use image::Rights;
use std::alloc::Allocator;
use std::rc::Rc;

impl<A: Allocator> Table<A> {
    /// The page at a place.
    #[inline]
    pub fn page(&self, place: usize) -> &Rc<Page, A>
        requires { place < 64 * vec_len self.now.chunks }
        ensures { slice_get (pages_of self.now.chunks.items) place ≡ Some result.now.value }
    {
        &self.chunks[place / CHUNK_PAGES].pages[place % CHUNK_PAGES]
    }
}

impl<A: Allocator + Copy> PageStore<A> {
    /// The byte at an address, whatever its rights, or `None` if it is not mapped.
    pub fn byte(&self, address: u32) -> Option<u8>
        ensures { result ≡ peeked (memory_of self.now) address }
    {
        let place = self.layout.directory.place(address / PAGE_SIZE as u32)?;
        let at = (address % PAGE_SIZE as u32) as usize;
        self.layout.rights[place].right(at)?;
        Some(self.table.page(place).bytes[at])
    }

    /// The byte at an address, if it has one of the wanted rights.
    pub fn read8(&self, address: u32, wanted: Rights) -> Option<u8>
        ensures { MatchOption result
            (grants wanted.0 ((memory_of self.now).rights address) ≡ false)
            (λ byte. (grants wanted.0 ((memory_of self.now).rights address) ≡ true)
            × ((memory_of self.now).bytes address ≡ byte)) }
    {
        let place = self.layout.directory.place(address / PAGE_SIZE as u32)?;
        let at = (address % PAGE_SIZE as u32) as usize;
        if !self.layout.rights[place].grants_one(at, wanted) {
            return None;
        }
        Some(self.table.page(place).bytes[at])
    }

    /// Two bytes in one page, little-endian, if each has one of the wanted rights.
    #[inline]
    pub fn read16(&self, address: u32, wanted: Rights) -> Option<u16>
        requires { address % 2 ≡ 0 }
        ensures { result ≡ number_if wanted.0 (memory_of self.now) 2 address }
    {
        let place = self.layout.directory.place(address / PAGE_SIZE as u32)?;
        let at = (address % PAGE_SIZE as u32) as usize;
        if !self.layout.rights[place].grants(at, 2, wanted) {
            return None;
        }
        Some(self.table.page(place).read16(at))
    }

    /// Four bytes in one page, little-endian, if each has one of the wanted rights.
    #[inline]
    pub fn read32(&self, address: u32, wanted: Rights) -> Option<u32>
        requires { address % 4 ≡ 0 }
        ensures { result ≡ number_if wanted.0 (memory_of self.now) 4 address }
    {
        let place = self.layout.directory.place(address / PAGE_SIZE as u32)?;
        let at = (address % PAGE_SIZE as u32) as usize;
        if !self.layout.rights[place].grants(at, 4, wanted) {
            return None;
        }
        Some(self.table.page(place).read32(at))
    }

    /// Four bytes that may be in two pages, little-endian, if each has one of the wanted rights.
    /// Their addresses are modulo 2^32.
    pub fn gather32(&self, address: u32, wanted: Rights) -> Option<u32>
        ensures { result ≡ number_if wanted.0 (around (memory_of self.now)) 4 address }
    {
        let b0 = self.read8(address, wanted)?;
        let b1 = self.read8(address.wrapping_add(1), wanted)?;
        let b2 = self.read8(address.wrapping_add(2), wanted)?;
        let b3 = self.read8(address.wrapping_add(3), wanted)?;
        Some(u32::from_le_bytes([b0, b1, b2, b3]))
    }

    /// Whether each of four bytes in one page is writable.
    pub fn may_write32(&self, address: u32) -> bool
        requires { address % 4 ≡ 0 }
        ensures { result ≡ granted to_write (memory_of self.now) 4 address }
    {
        match self.layout.directory.place(address / PAGE_SIZE as u32) {
            Some(place) => {
                let at = (address % PAGE_SIZE as u32) as usize;
                self.layout.rights[place].grants(at, 4, Rights::WRITE)
            }
            None => false,
        }
    }
}
