// The free blocks of one size, counted.
ghost use Rattle.std.specs.Prelude.{◌≡◌, ◌+◌, ◌<◌, ◌^◌, IfSome};
ghost use Rattle.page_heap.specs.Memory.{IsBlockSize};

use crate::block::Block;
use crate::pile::Pile;

#[derive(Drop)]
pub(crate) struct Shelf {
    size: usize,
    count: usize,
    pile: Pile,
    ghost tied: { (size ≡ pile.size) × (count ≡ pile.count) × IsBlockSize size },
}

impl Shelf {
    pub(crate) fn new(size: usize) -> Shelf
        requires { IsBlockSize size }
        ensures { (result.size ≡ size) × (result.count ≡ 0) }
    {
        Shelf {
            size,
            count: 0,
            pile: Pile::new(size),
        }
    }

    // A block of this size, if one is there.
    pub(crate) fn take(self, size: usize) -> (Shelf, Option<Block>)
        ensures { IfSome result.1 (λ b. b.size ≡ size) }
    {
        if self.count == 0 || self.size != size {
            return (self, None);
        }
        let (block, pile) = self.pile.pop();
        let shelf = Shelf {
            size,
            count: self.count - 1,
            pile,
        };
        (shelf, Some(block))
    }

    // An empty shelf takes blocks of any size. A block of another size than those that lie there
    // is lost.
    pub(crate) fn give(self, block: Block, size: usize) -> Shelf
        requires { (block.size ≡ size) × IsBlockSize size }
    {
        let shelf = if self.count == 0 {
            Shelf::new(size)
        } else {
            self
        };
        if shelf.size != size || shelf.count == usize::MAX {
            return shelf;
        }
        Shelf {
            size,
            count: shelf.count + 1,
            pile: shelf.pile.push(block),
        }
    }
}
