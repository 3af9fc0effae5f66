ghost use Rattle.std.specs.Prelude.{◌≡◌, ℕ, ◌*◌, ◌%◌, ◌-◌, ◌≤◌, length};
ghost use Rattle.page_heap.specs.Memory.{block_room};

use std::marker::Model;

/// Memory in which nothing lies, aligned to 16 bytes, that only its owner reaches. Dropped, it is
/// lost. An export that takes one by value is called with its address alone, and its caller gives
/// up the memory.
#[repr(C)]
#[derive(Drop)]
pub struct Block {
    pub(crate) ptr: *mut u8,
    pub ghost size: { ℕ },
    pub ghost whole: { size % 16 ≡ 0 },
}

impl Model for Block {
    ghost also_owns = { λ b. block_room b.ptr b.size };
}

impl Block {
    /// The slice's bytes, which are nobody else's from here on.
    pub fn from_slice(region: &'static mut [u128]) -> Block
        ensures { result.size ≡ length region.old * 16 }
    {
        unsafe {
            let ptr = region.as_mut_ptr() as *mut u8;
            Block { ptr }
        }
    }

    // The first `size` bytes, and those behind them.
    pub(crate) fn cut(self, size: usize) -> (Block, Block)
        requires { (size % 16 ≡ 0) × (size ≤ self.size) }
        ensures { (result.0.size ≡ size) × (result.1.size ≡ self.size - size) }
    {
        let Block { ptr } = self;
        let behind = unsafe { ptr.add(size) };
        (Block { ptr }, Block { ptr: behind })
    }
}
