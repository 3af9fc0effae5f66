//! Parts of worlds, each kept once.
ghost use Rattle.std.specs.Prelude.{◌≡◌, ◌≢◌, ◌<◌, ℕ, List, MatchBool, true, false, IfOk, length, slice_get};
ghost use Rattle.std.specs.List.{Contains};
ghost use Rattle.image.specs.Image.{ImageValue};
ghost use Rattle.hart_reservations.specs.Marks.{mark_at};
ghost use Rattle.hart_step.specs.Hart.{hart_of, registers_of};
ghost use Rattle.explore_sites.specs.Cells.{AreCanonical, words_shown};
ghost use Rattle.explore_search.specs.Searched.{GoesOn};
ghost use Rattle.explore_space.specs.Hashes.{HartsHashed, SharedsHashed, hash_of_hart, hash_of_shared, hash_words};
ghost use Rattle.explore_space.specs.Places.{hart_numbered, cells_in, marks_in, AreUnlike, HartsDiffer, SharedsDiffer};

use crate::shared::Shared;
use explore_sites::show_same;
use hart_step::Hart;
use std::alloc::{AllocError, Allocator};

/// The number of a hart, which is kept from now on; each one that is known is looked at.
pub fn add_hart<A: Allocator>(harts: &mut Vec<Hart, A>, hart: Hart) -> Result<usize, AllocError>
    ensures there { IfOk result (λ id. id < length harts.new.items) }
    ensures is { IfOk result (λ id. hart_numbered harts.new.items id ≡ hart_of hart) }
    ensures goes_on { GoesOn harts.old.items harts.new.items }
    ensures hashed { (hashes : List (List ℕ)) → Contains hashes (hash_words (hash_of_hart (hart_of hart)))
        → HartsHashed harts.old.items hashes → HartsHashed harts.new.items hashes }
    ensures once { HartsDiffer harts.old.items → HartsDiffer harts.new.items }
{
    'harts: for id in 0..harts.len() {
        if is_same_hart(&harts[id], &hart) {
            return Ok(id);
        }
    }
    let id = harts.len();
    harts.push(hart)?;
    Ok(id)
}

/// Whether two harts are the same.
pub fn is_same_hart(one: &Hart, other: &Hart) -> bool
    ensures { MatchBool result (hart_of one.now ≡ hart_of other.now)
        (hart_of one.now ≡ hart_of other.now → ⊥) }
{
    has_same_words(&one.registers, &other.registers)
        && one.pc == other.pc
        && one.state == other.state
}

fn has_same_words(ones: &[u32], others: &[u32]) -> bool
    requires { length ones.now ≡ length others.now }
    ensures { MatchBool result (registers_of ones.now ≡ registers_of others.now)
        (registers_of ones.now ≡ registers_of others.now → ⊥) }
{
    *ones == *others
}

/// The number of what harts share, which is kept from now on; each one that is known is looked at.
pub fn add_shared<A: Allocator>(
    shareds: &mut Vec<Shared<A>, A>,
    shared: Shared<A>,
) -> Result<usize, AllocError>
    ensures there { IfOk result (λ id. id < length shareds.new.items) }
    ensures marks { IfOk result (λ id. marks_in (slice_get shareds.new.items id) ≡ mark_at shared.marks) }
    ensures words { IfOk result (λ id. (image : ImageValue) → words_shown image (cells_in (slice_get shareds.new.items id))
        ≡ words_shown image shared.cells.items) }
    ensures goes_on { GoesOn shareds.old.items shareds.new.items }
    ensures hashed { (hashes : List (List ℕ)) → Contains hashes (hash_words (hash_of_shared shared))
        → SharedsHashed shareds.old.items hashes → SharedsHashed shareds.new.items hashes }
    ensures once { (image : ImageValue) → AreCanonical image shared.cells.items
        → SharedsDiffer image shareds.old.items → SharedsDiffer image shareds.new.items }
{
    'shareds: for id in 0..shareds.len() {
        if is_same_shared(&shareds[id], &shared) {
            return Ok(id);
        }
    }
    let id = shareds.len();
    shareds.push(shared)?;
    Ok(id)
}

/// Whether harts share the same: lists of cells that aren't canonical may differ though they show
/// the same words.
pub fn is_same_shared<A: Allocator>(one: &Shared<A>, other: &Shared<A>) -> bool
    ensures marks { result ≡ true → mark_at one.now.marks ≡ mark_at other.now.marks }
    ensures words { result ≡ true → (image : ImageValue)
        → words_shown image one.now.cells.items ≡ words_shown image other.now.cells.items }
    ensures unlike { result ≡ false → (image : ImageValue) → AreCanonical image one.now.cells.items
        → AreCanonical image other.now.cells.items → AreUnlike image one.now other.now }
{
    has_same_marks(&one.marks, &other.marks) && show_same(&one.cells, &other.cells)
}

fn has_same_marks(ones: &[Option<u32>], others: &[Option<u32>]) -> bool
    requires { length ones.now ≡ length others.now }
    ensures same { result ≡ true → mark_at ones.now ≡ mark_at others.now }
    ensures other { result ≡ false → mark_at ones.now ≢ mark_at others.now }
{
    *ones == *others
}
