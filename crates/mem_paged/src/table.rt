//! Tables of pages.

use crate::chunk::Chunk;
use std::alloc::Allocator;
use std::rc::Rc;

/// The pages of a memory in order, by chunks, each of which may be shared. A copy of a table costs
/// a pointer for each chunk. A shared chunk is copied, page by shared page, when one of its pages
/// is written.
#[derive(Drop)]
pub struct Table<A: Allocator> {
    pub chunks: Vec<Rc<Chunk<A>, A>, A>,
}
