//! Parts of worlds, each kept once, and found again by their hashes.
ghost use Rattle.std.specs.Prelude.{◌≡◌, ◌<◌, ◌++◌, ◌∷◌, [], if◌then◌else◌, IfOk, IfSome, is_ok, length, slice_get};
ghost use Rattle.image.specs.Image.{ImageValue};
ghost use Rattle.hart_reservations.specs.Marks.{mark_at};
ghost use Rattle.hart_step.specs.Hart.{hart_of};
ghost use Rattle.explore_sites.specs.Cells.{AreCanonical, words_shown};
ghost use Rattle.explore_search.specs.Searched.{GoesOn};
ghost use Rattle.explore_space.specs.Hashes.{HartsHashed, SharedsHashed};
ghost use Rattle.explore_space.specs.Places.{hart_numbered, cells_in, marks_in, HartsDiffer, SharedsDiffer};

use crate::hash::{hash_of_hart, hash_of_shared};
use crate::parts::{add_hart, add_shared, is_same_hart, is_same_shared};
use crate::shared::Shared;
use explore_table::Hints;
use hart_step::Hart;
use std::alloc::{AllocError, Allocator};

/// Harts, each kept once.
#[derive(Drop)]
pub struct KeptHarts<A: Allocator> {
    /// The harts, in the order in which they came.
    pub parts: Vec<Hart, A>,
    /// Numbers of harts, by their hashes.
    pub hints: Hints<A>,
    ghost hashed: { HartsHashed parts.items hints },
}

/// What harts share, each kept once.
#[derive(Drop)]
pub struct KeptShareds<A: Allocator> {
    /// The parts, in the order in which they came.
    pub parts: Vec<Shared<A>, A>,
    /// Numbers of parts, by their hashes.
    pub hints: Hints<A>,
    ghost hashed: { SharedsHashed parts.items hints },
}

impl<A: Allocator + Copy> KeptHarts<A> {
    /// No hart. Fails when out of memory.
    pub fn new(alloc: A) -> Result<KeptHarts<A>, AllocError>
        ensures { IfOk result (λ kept. kept.parts.items ≡ []) }
    {
        Ok(KeptHarts {
            parts: Vec::new(alloc),
            hints: Hints::new(alloc)?,
        })
    }
}

impl<A: Allocator + Copy> KeptShareds<A> {
    /// Nothing. Fails when out of memory.
    pub fn new(alloc: A) -> Result<KeptShareds<A>, AllocError>
        ensures { IfOk result (λ kept. kept.parts.items ≡ []) }
    {
        Ok(KeptShareds {
            parts: Vec::new(alloc),
            hints: Hints::new(alloc)?,
        })
    }
}

/// Keeps a hart that isn't kept yet, and returns its number.
pub fn push_hart<A: Allocator + Copy>(
    harts: &mut KeptHarts<A>,
    hart: Hart,
) -> Result<usize, AllocError>
    ensures number { IfOk result (λ id. id ≡ length harts.old.parts.items) }
    ensures pushed { harts.new.parts.items ≡ (if is_ok result then harts.old.parts.items ++ hart ∷ [] else harts.old.parts.items) }
    ensures goes_on { GoesOn harts.old.parts.items harts.new.parts.items }
{
    let id = harts.parts.len();
    harts.hints.put(hash_of_hart(&hart), id)?;
    harts.parts.push(hart)?;
    Ok(id)
}

// The number of a hart, where the hint leads to it.
fn hinted_hart(harts: &[Hart], hint: usize, hart: &Hart) -> Option<usize>
    ensures there { IfSome result (λ id. id < length harts.now) }
    ensures is { IfSome result (λ id. hart_numbered harts.now id ≡ hart_of hart.now) }
{
    let known = harts.get(hint)?;
    if is_same_hart(known, hart) {
        Some(hint)
    } else {
        None
    }
}

// The same where the hint leads to another one with this hash.
fn look_for_hart<A: Allocator + Copy>(
    harts: &mut KeptHarts<A>,
    hart: Hart,
) -> Result<usize, AllocError>
    ensures there { IfOk result (λ id. id < length harts.new.parts.items) }
    ensures is { IfOk result (λ id. hart_numbered harts.new.parts.items id ≡ hart_of hart) }
    ensures goes_on { GoesOn harts.old.parts.items harts.new.parts.items }
    ensures once { HartsDiffer harts.old.parts.items → HartsDiffer harts.new.parts.items }
{
    let hash = hash_of_hart(&hart);
    harts.hints.put(hash, harts.parts.len())?;
    let id = add_hart(&mut harts.parts, hart)?;
    harts.hints.put(hash, id)?;
    Ok(id)
}

/// The number of a hart, which is kept from now on.
pub fn keep_hart<A: Allocator + Copy>(
    harts: &mut KeptHarts<A>,
    hart: Hart,
) -> Result<usize, AllocError>
    ensures there { IfOk result (λ id. id < length harts.new.parts.items) }
    ensures is { IfOk result (λ id. hart_numbered harts.new.parts.items id ≡ hart_of hart) }
    ensures goes_on { GoesOn harts.old.parts.items harts.new.parts.items }
    ensures once { HartsDiffer harts.old.parts.items → HartsDiffer harts.new.parts.items }
{
    let Some(hint) = harts.hints.find(hash_of_hart(&hart)) else {
        return push_hart(harts, hart);
    };
    match hinted_hart(&harts.parts, hint, &hart) {
        Some(id) => Ok(id),
        None => look_for_hart(harts, hart),
    }
}

/// Keeps what isn't kept yet, and returns its number.
pub fn push_shared<A: Allocator + Copy>(
    shareds: &mut KeptShareds<A>,
    shared: Shared<A>,
) -> Result<usize, AllocError>
    ensures number { IfOk result (λ id. id ≡ length shareds.old.parts.items) }
    ensures pushed { shareds.new.parts.items ≡ (if is_ok result then shareds.old.parts.items ++ shared ∷ [] else shareds.old.parts.items) }
    ensures goes_on { GoesOn shareds.old.parts.items shareds.new.parts.items }
{
    let id = shareds.parts.len();
    shareds.hints.put(hash_of_shared(&shared), id)?;
    shareds.parts.push(shared)?;
    Ok(id)
}

// The number of what harts share, where the hint leads to it.
fn hinted_shared<A: Allocator>(
    shareds: &[Shared<A>],
    hint: usize,
    shared: &Shared<A>,
) -> Option<usize>
    ensures there { IfSome result (λ id. id < length shareds.now) }
    ensures marks { IfSome result (λ id. marks_in (slice_get shareds.now id) ≡ mark_at shared.now.marks) }
    ensures words { IfSome result (λ id. (image : ImageValue) → words_shown image (cells_in (slice_get shareds.now id))
        ≡ words_shown image shared.now.cells.items) }
{
    let known = shareds.get(hint)?;
    if is_same_shared(known, shared) {
        Some(hint)
    } else {
        None
    }
}

// The same where the hint leads to another part with this hash.
fn look_for_shared<A: Allocator + Copy>(
    shareds: &mut KeptShareds<A>,
    shared: Shared<A>,
) -> Result<usize, AllocError>
    ensures there { IfOk result (λ id. id < length shareds.new.parts.items) }
    ensures marks { IfOk result (λ id. marks_in (slice_get shareds.new.parts.items id) ≡ mark_at shared.marks) }
    ensures words { IfOk result (λ id. (image : ImageValue) → words_shown image (cells_in (slice_get shareds.new.parts.items id))
        ≡ words_shown image shared.cells.items) }
    ensures goes_on { GoesOn shareds.old.parts.items shareds.new.parts.items }
    ensures once { (image : ImageValue) → AreCanonical image shared.cells.items
        → SharedsDiffer image shareds.old.parts.items → SharedsDiffer image shareds.new.parts.items }
{
    let hash = hash_of_shared(&shared);
    shareds.hints.put(hash, shareds.parts.len())?;
    let id = add_shared(&mut shareds.parts, shared)?;
    shareds.hints.put(hash, id)?;
    Ok(id)
}

/// The number of what harts share, which is kept from now on.
pub fn keep_shared<A: Allocator + Copy>(
    shareds: &mut KeptShareds<A>,
    shared: Shared<A>,
) -> Result<usize, AllocError>
    ensures there { IfOk result (λ id. id < length shareds.new.parts.items) }
    ensures marks { IfOk result (λ id. marks_in (slice_get shareds.new.parts.items id) ≡ mark_at shared.marks) }
    ensures words { IfOk result (λ id. (image : ImageValue) → words_shown image (cells_in (slice_get shareds.new.parts.items id))
        ≡ words_shown image shared.cells.items) }
    ensures goes_on { GoesOn shareds.old.parts.items shareds.new.parts.items }
    ensures once { (image : ImageValue) → AreCanonical image shared.cells.items
        → SharedsDiffer image shareds.old.parts.items → SharedsDiffer image shareds.new.parts.items }
{
    let Some(hint) = shareds.hints.find(hash_of_shared(&shared)) else {
        return push_shared(shareds, shared);
    };
    match hinted_shared(&shareds.parts, hint, &shared) {
        Some(id) => Ok(id),
        None => look_for_shared(shareds, shared),
    }
}
