//! Where choices lead, by numbers.
ghost use Rattle.std.specs.Prelude.{OnOk};
ghost use Rattle.explore_search.specs.Rows.{KeepsRow};

use explore_table::Rows;
use std::alloc::{AllocError, Allocator};

/// Whether a search keeps where each choice leads from each place: for a place 4 bytes, and 4 for
/// each choice.
#[derive(Clone, Copy)]
pub enum Edges {
    /// It does.
    Kept,
    /// It keeps only how each place was found.
    NotKept,
}

/// Keeps the row of a place, if rows are kept.
pub(crate) fn keep_row<A: Allocator>(
    rows: &mut Rows<A>,
    edges: Edges,
    row: &[u32],
) -> Result<(), AllocError>
    ensures { OnOk result (KeepsRow edges row.now rows.old rows.new) }
{
    match edges {
        Edges::Kept => rows.push(row),
        Edges::NotKept => Ok(()),
    }
}
