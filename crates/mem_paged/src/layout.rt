//! The part of a memory that stores never change.
ghost use Rattle.std.specs.Prelude.{◌≡◌, ◌+◌, ◌^◌, ◌≤◌, vec_len, length};

use crate::directory::Directory;
use crate::page_rights::PageRights;
use std::alloc::Allocator;

/// The places of a memory's pages, and the rights of their bytes by place and span. It never
/// changes, so all copies share it.
#[derive(Drop)]
pub struct Layout<A: Allocator> {
    pub directory: Directory<A>,
    pub rights: Vec<PageRights<A>, A>,
    ghost even: { vec_len rights ≡ length directory.owners },
    ghost in_range: { directory.first + length directory.index ≤ 2 ^ 20 },
}
