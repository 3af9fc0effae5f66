//! A memory of pages.
ghost use Rattle.std.specs.Prelude.{◌≤◌, ◌*◌, vec_len, length};
ghost use Rattle.mem_flat.specs.Kept.{IsCodeOf};
ghost use Rattle.mem_paged.specs.Pages.{spans_of, pages_memory};
ghost use Rattle.mem_paged.specs.Table.{pages_of};

use crate::layout::Layout;
use crate::table::Table;
use mem_flat::Code;
use std::alloc::Allocator;
use std::rc::Rc;

/// A memory whose copies share its pages, the chunks of its table of pages, and the decoded words
/// of the program. A store into a shared page, or a page in a shared chunk, first copies that page
/// and that chunk, which fails when out of memory.
#[derive(Drop)]
pub struct PageStore<A: Allocator + Copy> {
    pub(crate) alloc: A,
    pub(crate) layout: Rc<Layout<A>, A>,
    pub(crate) table: Table<A>,
    pub(crate) code: Rc<Code<A>, A>,
    ghost covered: { length layout.value.directory.owners ≤ 64 * vec_len table.chunks },
    ghost code_is: { IsCodeOf (pages_memory layout.value.directory (spans_of layout.value.rights.items) (pages_of table.chunks.items)) code.value },
}
