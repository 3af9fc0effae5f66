//! The first key.
ghost use Rattle.std.specs.Prelude.{◌≡◌, ◌<◌, ◌≤◌, ◌+◌, ◌*◌, ℕ, IfOk, length, map, slice_index};
ghost use Rattle.hart_step.specs.Hart.{hart_of};
ghost use Rattle.machine.specs.Start.{started};
ghost use Rattle.explore_laws.specs.Places.{place_begun};
ghost use Rattle.explore_space.specs.Places.{IsKeyOf};
ghost use Rattle.explore_space.specs.Habits.{Habits, stride_by_habit};

use crate::kept::{KeptHarts, KeptShareds, push_hart, push_shared};
use crate::shared::Shared;
use hart_reservations::MAX_HARTS;
use hart_step::Hart;
use image::Image;
use machine::{Inputs, Machine};
use mem_flat::FlatStore;
use std::alloc::{AllocError, Allocator};

// The words of harts by their own numbers, of which nobody was chosen, and 0 for what they share.
fn first_row<A: Allocator>(alloc: A, count: u32) -> Result<Vec<u32, A>, AllocError>
    requires { count ≤ 32 }
    ensures len { IfOk result (λ row. length row.items ≡ count + 1) }
    ensures harts { IfOk result (λ row. (k : ℕ) → k < count → slice_index row.items k ≡ 2 * k) }
    ensures shared { IfOk result (λ row. slice_index row.items count ≡ 0) }
{
    let mut row = Vec::new(alloc);
    'harts: for k in 0..count {
        row.push(2 * k)?;
    }
    row.push(0)?;
    Ok(row)
}

/// The harts with which a program begins.
pub fn first_harts<A: Allocator + Copy>(
    alloc: A,
    image: &Image<A>,
    inputs: &Inputs,
) -> Result<Vec<Hart, A>, AllocError>
    ensures { IfOk result (λ harts. map hart_of harts.items ≡ (started image.now inputs.now).harts) }
{
    let machine: Machine<FlatStore<A>, A> = Machine::start(alloc, image, inputs)?;
    let harts = Vec::from_slice(alloc, machine.ends())?;
    Ok(harts)
}

// Keeps the harts with which a program begins.
fn keep_all<A: Allocator + Copy>(alloc: A, begin: &[Hart]) -> Result<KeptHarts<A>, AllocError>
    ensures { IfOk result (λ harts. harts.parts.items ≡ begin.now) }
{
    let mut harts = KeptHarts::new(alloc)?;
    'harts: for hart in begin {
        push_hart(&mut harts, *hart)?;
    }
    Ok(harts)
}

/// The key of the place in which a program begins, over its own parts alone. An entry that is no
/// multiple of 4 is refused here.
pub fn first_parts<A: Allocator + Copy>(
    alloc: A,
    image: &Image<A>,
    inputs: &Inputs,
    harts: &mut KeptHarts<A>,
    shareds: &mut KeptShareds<A>,
) -> Result<Vec<u32, A>, AllocError>
    ensures { IfOk result (λ key. (habits : Habits) → IsKeyOf habits image.now (length inputs.now) harts.new.parts.items shareds.new.parts.items
        key.items (place_begun (stride_by_habit habits) (started image.now inputs.now))) }
{
    if image.entry() % 4 != 0 {
        return Err(AllocError);
    }
    let row = first_row(alloc, inputs.harts())?;
    let begin = first_harts(alloc, image, inputs)?;
    *harts = keep_all(alloc, &begin)?;
    *shareds = KeptShareds::new(alloc)?;
    let nothing = Shared {
        marks: [None; MAX_HARTS],
        cells: Vec::new(alloc),
    };
    push_shared(shareds, nothing)?;
    Ok(row)
}
