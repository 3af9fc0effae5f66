//! Chunks of pages.
ghost use Rattle.std.specs.Prelude.{◌≡◌, vec_len};

use crate::page::Page;
use std::alloc::Allocator;
use std::rc::Rc;

/// The number of pages in a chunk.
pub const CHUNK_PAGES: usize = 64;

/// `CHUNK_PAGES` pages in order, each of which may be shared.
#[derive(Drop)]
pub struct Chunk<A: Allocator> {
    pub pages: Vec<Rc<Page, A>, A>,
    ghost whole: { vec_len pages ≡ 64 },
}
