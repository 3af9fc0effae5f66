// Free blocks of one size, each of which begins with a pointer to the one below it.
ghost use Rattle.std.specs.Prelude.{◌≡◌, ℕ, ◌+◌, ◌<◌};
ghost use Rattle.page_heap.specs.Memory.{IsBlockSize, piled};

use crate::block::Block;
use std::marker::Model;
use std::ptr::null_mut;

#[derive(Drop)]
pub(crate) struct Pile {
    top: *mut u8,
    pub(crate) ghost size: { ℕ },
    pub(crate) ghost count: { ℕ },
    ghost holds: { IsBlockSize size },
}

impl Model for Pile {
    ghost also_owns = { λ p. piled p.size p.count p.top };
}

impl Pile {
    pub(crate) fn new(_size: usize) -> Pile
        requires { IsBlockSize _size }
        ensures { (result.size ≡ _size) × (result.count ≡ 0) }
    {
        Pile { top: null_mut() }
    }

    pub(crate) fn push(self, block: Block) -> Pile
        requires { block.size ≡ self.size }
        ensures { (result.size ≡ self.size) × (result.count ≡ self.count + 1) }
    {
        let Pile { top: below } = self;
        let Block { ptr: top } = block;
        unsafe {
            let link = top as *mut *mut u8;
            link.write(below);
            Pile { top }
        }
    }

    pub(crate) fn pop(self) -> (Block, Pile)
        requires { 0 < self.count }
        ensures sizes { (result.0.size ≡ self.size) × (result.1.size ≡ self.size) }
        ensures count { result.1.count + 1 ≡ self.count }
    {
        let Pile { top: ptr } = self;
        unsafe {
            let link = ptr as *mut *mut u8;
            let top = link.read();
            (Block { ptr }, Pile { top })
        }
    }
}
