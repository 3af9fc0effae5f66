ghost use Rattle.std.specs.Prelude.{◌≡◌, ◌-◌, ◌^◌, ◌<◌, ◌≤◌, IfSome};
ghost use Rattle.page_heap.specs.Memory.{IsBlockSize, IsRoomFor, block_token};

use crate::block::Block;
use crate::shelf::Shelf;
use std::alloc::{AllocError, Allocator};
use std::cell::Cell;
use std::{array, fmt};

// Each block is aligned to this, and no smaller one is handed out.
const UNIT: usize = 16;

// A shelf for each power of two below 2^48.
const SHELVES: usize = 48;

// The bytes that were never handed out.
#[derive(Drop)]
struct Rest {
    left: usize,
    block: Block,
    ghost tied: { left ≡ block.size },
}

impl Rest {
    fn cut(self, size: usize) -> (Rest, Option<Block>)
        requires { IsBlockSize size }
        ensures { IfSome result.1 (λ b. b.size ≡ size) }
    {
        if self.left < size {
            return (self, None);
        }
        let (block, behind) = self.block.cut(size);
        let rest = Rest {
            left: self.left - size,
            block: behind,
        };
        (rest, Some(block))
    }
}

#[tactic(auto, using(crate::proofs::Sizes::room_is_whole))]
fn block_size(size: usize) -> usize
    requires { size < 2 ^ 63 }
    ensures room { IsRoomFor size result }
    ensures whole { IsBlockSize result }
{
    size.max(UNIT).next_power_of_two()
}

/// A heap over one region, for one thread: pass `&heap` where std takes an allocator. A block has
/// the least power of two that holds what was asked for, 16 bytes at least, and one that is given
/// back is handed out again for a request of its size.
#[derive(Drop)]
pub struct Heap {
    rest: Cell<Option<Rest>>,
    shelves: [Cell<Shelf>; SHELVES],
}

impl Heap {
    /// A heap over this block of `size` bytes.
    pub fn new(block: Block, size: usize) -> Heap
        requires { block.size ≡ size }
    {
        Heap {
            rest: Cell::new(Some(Rest { left: size, block })),
            shelves: array::from_fn(|_| Cell::new(Shelf::new(UNIT))),
        }
    }

    /// A heap over the bytes of this slice.
    pub fn over(region: &'static mut [u128]) -> Heap {
        let size = region.len() * UNIT;
        Heap::new(Block::from_slice(region), size)
    }

    fn take(&self, size: usize, align: usize) -> Option<Block>
        ensures { IfSome result (λ b. IsRoomFor size b.size × (align ≤ 16)) }
    {
        if align > UNIT || size > isize::MAX as usize {
            return None;
        }
        let size = block_size(size);
        let place = self.shelves.get(size.trailing_zeros() as usize)?;
        let (shelf, kept) = place.replace(Shelf::new(size)).take(size);
        place.set(shelf);
        match kept {
            Some(block) => Some(block),
            None => self.cut(size),
        }
    }

    fn cut(&self, size: usize) -> Option<Block>
        requires { IsBlockSize size }
        ensures { IfSome result (λ b. b.size ≡ size) }
    {
        let (rest, block) = self.rest.replace(None)?.cut(size);
        self.rest.set(Some(rest));
        block
    }

    #[tactic(auto, using(crate::proofs::Sizes::one_room))]
    fn give(&self, block: Block, size: usize)
        requires { IsRoomFor size block.size }
    {
        let size = block_size(size);
        if let Some(place) = self.shelves.get(size.trailing_zeros() as usize) {
            let shelf = place.replace(Shelf::new(size));
            place.set(shelf.give(block, size));
        }
    }
}

unsafe impl Allocator for Heap {
    ghost dealloc_token = { λ heap ty ptr. block_token ty ptr };

    fn allocate(&self, size: usize, align: usize) -> Result<*mut u8, AllocError> {
        match self.take(size, align) {
            Some(Block { ptr }) => Ok(ptr),
            None => Err(AllocError),
        }
    }

    unsafe fn deallocate(&self, ptr: *mut u8, size: usize, _align: usize) {
        self.give(Block { ptr }, size);
    }
}

impl fmt::Debug for Heap {
    fn fmt<W: fmt::Write>(&self, f: &mut fmt::Formatter<W>) -> fmt::Result {
        f.write_str("Heap")
    }
}
