//! Fills pages.
ghost use Rattle.std.specs.Prelude.{◌≡◌, ◌<◌, ◌≤◌, ◌+◌, ◌^◌, ◌/◌, ◌%◌, ◌*◌, None, Some, IfOk, OnOk, All, length};
ghost use Rattle.mem_store.specs.Image.{image_memory};
ghost use Rattle.mem_paged.specs.Directory.{page_place};
ghost use Rattle.mem_paged.specs.Building.{built, unmapped, over, IsEven, IsCovered};
ghost use Rattle.mem_paged.specs.Runs.{with_run};

use crate::building::Building;
use crate::directory::Directory;
use crate::page::{PAGE_SIZE, PAGES, Page};
use crate::page_rights::{PageRights, Span};
use image::{Image, Rights, Segment};
use std::alloc::{AllocError, Allocator};

// The number of the remaining bytes that are in the page of an address.
fn run_of(address: u32, left: u32) -> u32
    requires { 0 < left }
    ensures some { 0 < result }
    ensures within { result ≤ left }
    ensures in_page { address % 4096 + result ≤ 4096 }
{
    left.min(PAGE_SIZE as u32 - address % PAGE_SIZE as u32)
}

impl<A: Allocator + Copy> Building<A> {
    // No pages, with room for the `count` pages from `first` on.
    fn new(alloc: A, first: u32, count: u32) -> Result<Building<A>, AllocError>
        requires { first + count ≤ 2 ^ 20 }
        ensures even { IfOk result (λ b. IsEven b × (built b ≡ unmapped)) }
        ensures room { IfOk result (λ b. (b.directory.first ≡ first)
            × (length b.directory.index ≡ count)) }
    {
        Ok(Building {
            alloc,
            directory: Directory::new(alloc, first, count)?,
            rights: Vec::new(alloc),
            pages: Vec::new(alloc),
        })
    }

    // Adds a page in which no byte is mapped.
    fn add_page(&mut self, number: u32) -> Result<usize, AllocError>
        requires even { IsEven self.old }
        requires from { self.old.directory.first ≤ number }
        requires to { number < self.old.directory.first + length self.old.directory.index }
        requires new { page_place self.old.directory number ≡ None }
        ensures even { IfOk result (λ k. IsEven self.new × (k < length self.new.directory.owners)) }
        ensures placed { IfOk result (λ k. page_place self.new.directory number ≡ Some k) }
        ensures memory { OnOk result (built self.new ≡ built self.old) }
        ensures room { OnOk result ((self.new.directory.first ≡ self.old.directory.first)
            × (length self.new.directory.index ≡ length self.old.directory.index)) }
    {
        let place = self.directory.add(number)?;
        self.rights.push(PageRights {
            spans: Vec::new(self.alloc),
        })?;
        self.pages.push(Page {
            bytes: [0; PAGE_SIZE],
        })?;
        Ok(place)
    }

    // The place of a page, which is added if it does not exist.
    fn page(&mut self, number: u32) -> Result<usize, AllocError>
        requires even { IsEven self.old }
        requires from { self.old.directory.first ≤ number }
        requires to { number < self.old.directory.first + length self.old.directory.index }
        ensures even { IfOk result (λ k. IsEven self.new × (k < length self.new.directory.owners)) }
        ensures placed { IfOk result (λ k. page_place self.new.directory number ≡ Some k) }
        ensures memory { OnOk result (built self.new ≡ built self.old) }
        ensures room { OnOk result ((self.new.directory.first ≡ self.old.directory.first)
            × (length self.new.directory.index ≡ length self.old.directory.index)) }
    {
        match self.directory.place(number) {
            Some(place) => Ok(place),
            None => self.add_page(number),
        }
    }

    // Maps `count` bytes at an address in the page at a place; the source starts at its byte
    // `first`.
    fn set(
        &mut self,
        place: usize,
        address: u32,
        rights: Rights,
        bytes: &[u8],
        first: u32,
        count: u32,
    ) -> Result<(), AllocError>
        requires even { IsEven self.old }
        requires inside { place < length self.old.directory.owners }
        requires placed { page_place self.old.directory (address / 4096) ≡ Some place }
        requires in_page { address % 4096 + count ≤ 4096 }
        requires small { first + count ≤ 2 ^ 32 }
        ensures even { OnOk result (IsEven self.new) }
        ensures memory { OnOk result (built self.new
            ≡ with_run (built self.old) address count rights.0 bytes.now first) }
        ensures room { OnOk result ((self.new.directory.first ≡ self.old.directory.first)
            × (length self.new.directory.index ≡ length self.old.directory.index)) }
    {
        let at = (address % PAGE_SIZE as u32) as usize;
        let span = Span {
            from: at,
            to: at + count as usize,
            rights,
        };
        self.rights[place].put(span)?;
        self.pages[place].fill(at, bytes, first as usize, count as usize);
        Ok(())
    }

    // Maps `count` bytes at an address, all in one page; the source starts at its byte `first`.
    fn put(
        &mut self,
        address: u32,
        rights: Rights,
        bytes: &[u8],
        first: u32,
        count: u32,
    ) -> Result<(), AllocError>
        requires even { IsEven self.old }
        requires from { self.old.directory.first * 4096 ≤ address }
        requires to { address
            < (self.old.directory.first + length self.old.directory.index) * 4096 }
        requires in_page { address % 4096 + count ≤ 4096 }
        requires small { first + count ≤ 2 ^ 32 }
        ensures even { OnOk result (IsEven self.new) }
        ensures memory { OnOk result (built self.new
            ≡ with_run (built self.old) address count rights.0 bytes.now first) }
        ensures room { OnOk result ((self.new.directory.first ≡ self.old.directory.first)
            × (length self.new.directory.index ≡ length self.old.directory.index)) }
    {
        let place = self.page(address / PAGE_SIZE as u32)?;
        self.set(place, address, rights, bytes, first, count)?;
        Ok(())
    }

    // Maps a segment over the present pages, page by page.
    fn add<B: Allocator>(&mut self, segment: &Segment<B>) -> Result<(), AllocError>
        requires even { IsEven self.old }
        requires covered { IsCovered self.old.directory.first
            (length self.old.directory.index) segment.now }
        ensures even { OnOk result (IsEven self.new) }
        ensures memory { OnOk result (built self.new ≡ over segment.now (built self.old)) }
        ensures room { OnOk result ((self.new.directory.first ≡ self.old.directory.first)
            × (length self.new.directory.index ≡ length self.old.directory.index)) }
    {
        let size = segment.size;
        let mut i = 0;
        'runs: while i < size {
            let address = segment.base + i;
            let count = run_of(address, size - i);
            self.put(address, segment.rights, &segment.bytes, i, count)?;
            i += count;
        }
        Ok(())
    }
}

// The lowest page of some segments, and the number of pages from it to the highest.
fn range_of<A: Allocator>(segments: &[Segment<A>]) -> (u32, u32)
    requires { All (λ s. s.base + s.size ≤ 2 ^ 32) segments.now }
    ensures in_range { result.0 + result.1 ≤ 2 ^ 20 }
    ensures covered { All (IsCovered result.0 result.1) segments.now }
{
    let mut first = PAGES;
    let mut end: u32 = 0;
    'segments: for segment in segments {
        first = first.min(segment.base / PAGE_SIZE as u32);
        end = end.max(
            (segment.base as u64 + segment.size as u64).div_ceil(PAGE_SIZE as u64) as u32,
        );
    }
    (first, end.saturating_sub(first))
}

/// The pages of an image. The first segment is mapped last, over the others. Fails when out of
/// memory.
pub fn filled<A: Allocator + Copy, B: Allocator>(
    alloc: A,
    image: &Image<B>,
) -> Result<Building<A>, AllocError>
    ensures { IfOk result (λ b. IsEven b × (built b ≡ image_memory image.now)) }
{
    let segments = image.segments();
    let (first, count) = range_of(segments);
    let mut building = Building::new(alloc, first, count)?;
    'segments: for i in 0..segments.len() {
        building.add(&segments[segments.len() - 1 - i])?;
    }
    Ok(building)
}
