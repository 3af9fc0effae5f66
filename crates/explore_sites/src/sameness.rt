//! Whether cells stand for the same words.
ghost use Rattle.std.specs.Prelude.{◌≡◌, MatchBool, true, false};
ghost use Rattle.image.specs.Image.{ImageValue};
ghost use Rattle.explore_sites.specs.Cells.{AreCanonical, WordsDiffer, cell_words, cell_word, words_shown};

use crate::cell::Cell;

// Whether words have the same bytes.
pub(crate) fn is_same_word(one: [u8; 4], other: [u8; 4]) -> bool
    ensures { MatchBool result (one ≡ other) (one ≡ other → ⊥) }
{
    one == other
}

// Whether cells say the same.
fn is_same_cell(one: Cell, other: Cell) -> bool
    ensures { MatchBool result (cell_word one ≡ cell_word other) (cell_word one ≡ cell_word other → ⊥) }
{
    one.address == other.address && is_same_word(one.bytes, other.bytes)
}

// Whether lists have the same cells in the same order.
fn are_same(one: &[Cell], other: &[Cell]) -> bool
    ensures { MatchBool result (cell_words one.now ≡ cell_words other.now)
        (cell_words one.now ≡ cell_words other.now → ⊥) }
{
    if one.len() != other.len() {
        return false;
    }
    'cells: for (at, cell) in one.iter().enumerate() {
        if !is_same_cell(*cell, other[at]) {
            return false;
        }
    }
    true
}

/// Whether two lists of canonical cells show the same words.
pub fn show_same(one: &[Cell], other: &[Cell]) -> bool
    ensures same { result ≡ true
        → (image : ImageValue) → words_shown image one.now ≡ words_shown image other.now }
    ensures differ { result ≡ false
        → (image : ImageValue) → AreCanonical image one.now → AreCanonical image other.now
        → WordsDiffer (words_shown image one.now) (words_shown image other.now) }
{
    are_same(one, other)
}
