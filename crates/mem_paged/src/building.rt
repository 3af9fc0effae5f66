//! Pages that are not shared yet.

use crate::directory::Directory;
use crate::page::Page;
use crate::page_rights::PageRights;
use std::alloc::Allocator;

/// The pages of an image while they are filled: their directory, and at each place the rights of a
/// page and its bytes.
#[derive(Drop)]
pub struct Building<A: Allocator + Copy> {
    pub alloc: A,
    pub directory: Directory<A>,
    pub rights: Vec<PageRights<A>, A>,
    pub pages: Vec<Page, A>,
}
