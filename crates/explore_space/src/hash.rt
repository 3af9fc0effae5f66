//! Hashes of parts, by which parts are found again.
ghost use Rattle.std.specs.Prelude.{◌≡◌, length, slice_index};
ghost use Rattle.hart_reservations.specs.Marks.{mark_at};
ghost use Rattle.hart_step.specs.Hart.{hart_of};
ghost use Rattle.explore_sites.specs.Cells.{cell_words};
ghost use Rattle.explore_space.specs.Hashes.{hash_of_cells, hash_of_hart, hash_of_mark, hash_of_marks, hash_of_shared, hash_row, hash_words, state_word};

use crate::shared::Shared;
use explore_sites::Cell;
use explore_table::mixed;
use hart_step::{Hart, HartState};
use std::alloc::Allocator;

// A hash as two words, the higher one first.
fn words_of(hash: u64) -> [u32; 2]
    ensures { result ≡ hash_words hash }
{
    [(hash >> 32) as u32, (hash % (1 << 32)) as u32]
}

// The hash of words behind another hash.
fn hash_of_row(start: u64, row: &[u32]) -> u64
    ensures { result ≡ hash_row start (slice_index row.now) (length row.now) }
{
    let mut hash = start;
    'words: for word in row {
        hash = mixed(hash, *word);
    }
    hash
}

// The same of bytes.
fn hash_of_bytes(start: u64, bytes: &[u8]) -> u64
    ensures { result ≡ hash_row start (slice_index bytes.now) (length bytes.now) }
{
    let mut hash = start;
    'bytes: for byte in bytes {
        hash = mixed(hash, u32::from(*byte));
    }
    hash
}

// A state as a word, but for its cause.
fn state_word(state: HartState) -> u32
    ensures { result ≡ state_word state }
{
    match state {
        HartState::Running => 0,
        HartState::Exited(status) => status.wrapping_mul(2).wrapping_add(1),
        HartState::Faulted(_) => 2,
    }
}

/// The hash of a hart.
pub fn hash_of_hart(hart: &Hart) -> [u32; 2]
    ensures { result ≡ hash_words (hash_of_hart (hart_of hart.now)) }
{
    let hash = mixed(hash_of_row(0, &hart.registers), hart.pc);
    words_of(mixed(hash, state_word(hart.state)))
}

// The hash of the words that cells say.
fn hash_of_cells(cells: &[Cell]) -> u64
    ensures { result ≡ hash_of_cells 0 (cell_words cells.now) }
{
    let mut hash = 0;
    'cells: for cell in cells {
        hash = hash_of_bytes(mixed(hash, cell.address), &cell.bytes);
    }
    hash
}

// The hash of a hart's reservation, if it has one, behind another hash.
fn hash_of_mark(start: u64, hart: u32, mark: Option<u32>) -> u64
    ensures { result ≡ hash_of_mark start hart mark }
{
    match mark {
        Some(word) => mixed(mixed(start, hart), word),
        None => start,
    }
}

// The same of the reservations of harts.
fn hash_of_marks(start: u64, marks: &[Option<u32>]) -> u64
    requires { length marks.now ≡ 32 }
    ensures { result ≡ hash_of_marks start (mark_at marks.now) 32 }
{
    let mut hash = start;
    'harts: for hart in 0..32 {
        hash = hash_of_mark(hash, hart, marks[hart as usize]);
    }
    hash
}

/// The hash of what harts share.
pub fn hash_of_shared<A: Allocator>(shared: &Shared<A>) -> [u32; 2]
    ensures { result ≡ hash_words (hash_of_shared shared.now) }
{
    let hash = hash_of_cells(&shared.cells);
    words_of(hash_of_marks(hash, &shared.marks))
}
