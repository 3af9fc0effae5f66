//! Finding the block of an address.
ghost use Rattle.std.specs.Prelude.{◌≡◌, IfSome, MatchOption, None};
ghost use Rattle.mem_store.specs.Image.{segment_at};
ghost use Rattle.mem_flat.specs.Blocks.{IsInOrder, StandsAt};

use crate::block::Block;
use std::alloc::Allocator;

/// The block that contains an address, by binary search: its index, and the offset of the address
/// in it.
pub fn find<A: Allocator>(blocks: &[Block<A>], address: u32) -> Option<(usize, usize)>
    requires { IsInOrder blocks.now }
    ensures { MatchOption result (segment_at blocks.now address ≡ None)
        (λ p. StandsAt blocks.now address 1 p.0 p.1) }
{
    let mut low = 0;
    let mut high = blocks.len();
    'halves: while low < high {
        let middle = low + (high - low) / 2;
        let block = &blocks[middle];
        let base = block.base();
        if address < base {
            high = middle;
        } else if ((address - base) as usize) < block.size() {
            return Some((middle, (address - base) as usize));
        } else {
            low = middle + 1;
        }
    }
    None
}

/// The last block, if it contains all bytes of an access, in the form of `find`. Data is mostly
/// above code, so it is tried first.
#[inline]
pub fn in_last<A: Allocator>(
    blocks: &[Block<A>],
    address: u32,
    count: usize,
) -> Option<(usize, usize)>
    ensures { IfSome result (λ p. StandsAt blocks.now address count p.0 p.1) }
{
    if blocks.is_empty() {
        return None;
    }
    let last = blocks.len() - 1;
    let block = &blocks[last];
    let base = block.base();
    if address < base {
        return None;
    }
    let offset = (address - base) as usize;
    let size = block.size();
    if size < count || size - count < offset {
        return None;
    }
    Some((last, offset))
}

/// The block that contains all bytes of an access, in the form of `find`. On `None` the caller goes
/// on byte by byte; the result is the same.
pub fn place<A: Allocator>(
    blocks: &[Block<A>],
    address: u32,
    count: usize,
) -> Option<(usize, usize)>
    requires { IsInOrder blocks.now }
    ensures { IfSome result (λ p. StandsAt blocks.now address count p.0 p.1) }
{
    let (i, offset) = find(blocks, address)?;
    if blocks[i].size() - offset < count {
        return None;
    }
    Some((i, offset))
}
