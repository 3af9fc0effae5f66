//! Makes filled pages shareable.
ghost use Rattle.std.specs.Prelude.{◌≡◌, ◌+◌, ◌*◌, ◌/◌, ◌%◌, ◌≤◌, IfOk, take, vec_len, length};
ghost use Rattle.mem_flat.specs.Kept.{IsCodeOf};
ghost use Rattle.mem_paged.specs.Building.{built, IsEven};
ghost use Rattle.mem_paged.specs.Store.{memory_of};
ghost use Rattle.mem_paged.specs.Table.{pages_of, shared_values};

use crate::building::Building;
use crate::chunk::{CHUNK_PAGES, Chunk};
use crate::layout::Layout;
use crate::page::{PAGE_SIZE, Page};
use crate::page_store::PageStore;
use crate::sharing::{chunk_of, share};
use crate::table::Table;
use mem_flat::Code;
use std::alloc::{AllocError, Allocator};
use std::rc::Rc;

// Wraps each page, to be shared.
fn wrapped<A: Allocator + Copy>(alloc: A, pages: &[Page]) -> Result<Vec<Rc<Page, A>, A>, AllocError>
    ensures values { IfOk result (λ ps. shared_values ps.items ≡ pages.now) }
    ensures len { IfOk result (λ ps. vec_len ps ≡ length pages.now) }
{
    let mut shared = Vec::with_capacity(alloc, pages.len())?;
    'pages: for page in pages {
        shared.push(Rc::new(alloc, *page)?)?;
    }
    Ok(shared)
}

// Wraps pages, and fills their last chunk with one blank page, repeated; it is never read.
fn padded<A: Allocator + Copy>(
    alloc: A,
    pages: &[Rc<Page, A>],
) -> Result<Vec<Rc<Page, A>, A>, AllocError>
    ensures begins { IfOk result (λ ps.
        take (length pages.now) (shared_values ps.items) ≡ shared_values pages.now) }
    ensures whole { IfOk result (λ ps. vec_len ps ≡ (length pages.now / 64 + 1) * 64) }
{
    let blank = Rc::new(
        alloc,
        Page {
            bytes: [0; PAGE_SIZE],
        },
    )?;
    let mut all = share(alloc, pages)?;
    'blanks: for _ in pages.len() % CHUNK_PAGES..CHUNK_PAGES {
        all.push(blank.clone()?)?;
    }
    Ok(all)
}

// Pages by chunks.
fn chunks_of<A: Allocator + Copy>(
    alloc: A,
    pages: &[Rc<Page, A>],
) -> Result<Vec<Rc<Chunk<A>, A>, A>, AllocError>
    requires { length pages.now % 64 ≡ 0 }
    ensures pages { IfOk result (λ cs. pages_of cs.items ≡ shared_values pages.now) }
    ensures count { IfOk result (λ cs. vec_len cs * 64 ≡ length pages.now) }
{
    let mut chunks = Vec::with_capacity(alloc, pages.len() / CHUNK_PAGES)?;
    'parts: for i in 0..pages.len() / CHUNK_PAGES {
        let (_, rest) = pages.split_at(i * CHUNK_PAGES);
        let (part, _) = rest.split_at(CHUNK_PAGES);
        let chunk = chunk_of(alloc, part)?;
        chunks.push(Rc::new(alloc, chunk)?)?;
    }
    Ok(chunks)
}

// A table of filled pages, and of blank ones after them.
fn table_of<A: Allocator + Copy>(alloc: A, pages: &[Page]) -> Result<Table<A>, AllocError>
    ensures begins { IfOk result (λ t.
        take (length pages.now) (pages_of t.chunks.items) ≡ pages.now) }
    ensures room { IfOk result (λ t. length pages.now ≤ 64 * vec_len t.chunks) }
{
    let shared = wrapped(alloc, pages)?;
    let all = padded(alloc, &shared)?;
    let chunks = chunks_of(alloc, &all)?;
    Ok(Table { chunks })
}

/// A store of filled pages, with the code of their memory. Fails when out of memory.
pub fn store_of<A: Allocator + Copy>(
    alloc: A,
    building: Building<A>,
    code: Code<A>,
) -> Result<PageStore<A>, AllocError>
    requires even { IsEven building }
    requires code_is { IsCodeOf (built building) code }
    ensures { IfOk result (λ s. memory_of s ≡ built building) }
{
    let table = table_of(alloc, &building.pages)?;
    let layout = Layout {
        directory: building.directory,
        rights: building.rights,
    };
    let layout = Rc::new(alloc, layout)?;
    let code = Rc::new(alloc, code)?;
    Ok(PageStore {
        alloc,
        layout,
        table,
        code,
    })
}
