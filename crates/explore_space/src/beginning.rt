//! The key of the place in which turns start, and the steps that harts have taken there.
ghost use Rattle.std.specs.Prelude.{◌≡◌, ◌/◌, ◌<◌, ℕ, Some, IfOk, length, slice_get, slice_index};
ghost use Rattle.mem_store.specs.Image.{image_memory, segments_memory};
ghost use Rattle.hart_local.specs.CodeMemory.{code_in};
ghost use Rattle.machine.specs.Start.{started};
ghost use Rattle.machine.specs.World.{World};
ghost use Rattle.hart_step.specs.Hart.{hart_of};
ghost use Rattle.explore_laws.specs.Places.{place_begun};
ghost use Rattle.explore_space.specs.Begun.{first_steps, runs_outside, place_hart_begun, place_rested, turns_start};
ghost use Rattle.explore_space.specs.Habits.{habits_of, stride_by_habit};
ghost use Rattle.explore_space.specs.Places.{IsKey, IsKeyOf, KeysStay, hart_worded, place_of_key};

use crate::first::first_harts;
use crate::kept::{KeptHarts, keep_hart};
use crate::section::Section;
use crate::settling::{LocalCode, runs_outside, settle};
use crate::shared::Shared;
use crate::word::{hart_of_word, is_chosen_word, word_of_hart};
use hart_step::Hart;
use image::Image;
use machine::Inputs;
use std::alloc::{AllocError, Allocator};

// Whether a hart of a key runs and doesn't stand in a section.
fn runs_outside_at<A: Allocator>(
    harts: &KeptHarts<A>,
    key: &[u32],
    number: usize,
    section: Option<Section>,
) -> bool
    requires there { number < length key.now }
    requires known { slice_index key.now number / 2 < length harts.now.parts.items }
    ensures { result ≡ runs_outside section (hart_worded harts.now.parts.items (slice_index key.now number)) }
{
    runs_outside(&harts.parts[hart_of_word(key[number]) as usize], section)
}

// The key of the place where a hart has taken its local steps.
fn rested_key<A: Allocator + Copy>(
    image: &Image<A>,
    code: &LocalCode<A>,
    count: usize,
    harts: &mut KeptHarts<A>,
    shareds: &[Shared<A>],
    key: Vec<u32, A>,
    number: usize,
) -> Result<Vec<u32, A>, AllocError>
    requires its_code { segments_memory code.now.code ≡ code_in (image_memory image.now) }
    requires there { number < count }
    requires is { IsKey image.now count harts.old.parts.items shareds.now key.items }
    ensures key { IfOk result (λ next. IsKeyOf (habits_of code.now) image.now count harts.new.parts.items shareds.now next.items
        (place_rested code.now.section (place_of_key (habits_of code.now) image.now count harts.old.parts.items shareds.now key.items) number)) }
    ensures kept { KeysStay (habits_of code.now) image.now count harts.old.parts.items shareds.now harts.new.parts.items shareds.now }
{
    let _ = image;
    let _ = shareds;
    let mut next = key;
    let word = next[number];
    let mut hart = harts.parts[hart_of_word(word) as usize];
    settle(&mut hart, code);
    let id = keep_hart(harts, hart)?;
    next[number] = word_of_hart(id, is_chosen_word(word))?;
    Ok(next)
}

// The key of the place where a hart has taken its local steps, if it still runs behind them, outside
// of the section.
fn begin_hart<A: Allocator + Copy>(
    alloc: A,
    image: &Image<A>,
    code: &LocalCode<A>,
    count: usize,
    harts: &mut KeptHarts<A>,
    shareds: &[Shared<A>],
    key: Vec<u32, A>,
    number: usize,
) -> Result<Vec<u32, A>, AllocError>
    requires its_code { segments_memory code.now.code ≡ code_in (image_memory image.now) }
    requires there { number < count }
    requires is { IsKey image.now count harts.old.parts.items shareds.now key.items }
    ensures { IfOk result (λ next. IsKeyOf (habits_of code.now) image.now count harts.new.parts.items shareds.now next.items
        (place_hart_begun code.now.section (place_of_key (habits_of code.now) image.now count harts.old.parts.items shareds.now key.items) number)) }
{
    let before = Vec::from_slice(alloc, &key)?;
    let next = rested_key(image, code, count, harts, shareds, key, number)?;
    if runs_outside_at(harts, &next, number, code.section) {
        return Ok(next);
    }
    Ok(before)
}

/// The key of the place where each hart has taken its local steps, if it still runs behind them,
/// outside of the section.
pub fn begun_key<A: Allocator + Copy>(
    alloc: A,
    image: &Image<A>,
    code: &LocalCode<A>,
    inputs: &Inputs,
    harts: &mut KeptHarts<A>,
    shareds: &[Shared<A>],
    key: Vec<u32, A>,
) -> Result<Vec<u32, A>, AllocError>
    requires its_code { segments_memory code.now.code ≡ code_in (image_memory image.now) }
    requires is { IsKeyOf (habits_of code.now) image.now (length inputs.now) harts.old.parts.items shareds.now key.items
        (place_begun (stride_by_habit (habits_of code.now)) (started image.now inputs.now)) }
    ensures { IfOk result (λ next. IsKeyOf (habits_of code.now) image.now (length inputs.now) harts.new.parts.items shareds.now next.items
        (turns_start (habits_of code.now) (started image.now inputs.now))) }
{
    let count = inputs.harts() as usize;
    let mut key = key;
    'numbers: for number in 0..count {
        key = begin_hart(alloc, image, code, count, harts, shareds, key, number)?;
    }
    Ok(key)
}

// How many local steps a hart takes first.
fn steps_of_hart<A: Allocator>(hart: &Hart, code: &LocalCode<A>) -> u32
    ensures { (w : World) (h : ℕ) → slice_get w.harts h ≡ Some (hart_of hart.now)
        → segments_memory code.now.code ≡ code_in w.memory → result ≡ first_steps code.now.section w h }
{
    let mut hart = *hart;
    let steps = settle(&mut hart, code);
    if runs_outside(&hart, code.section) {
        steps
    } else {
        0
    }
}

/// How many local steps each hart has taken where turns start. Fails when out of memory.
pub fn begun_steps<A: Allocator + Copy>(
    alloc: A,
    image: &Image<A>,
    code: &LocalCode<A>,
    inputs: &Inputs,
) -> Result<Vec<u32, A>, AllocError>
    requires { segments_memory code.now.code ≡ code_in (image_memory image.now) }
    ensures count { IfOk result (λ steps. length steps.items ≡ length inputs.now) }
    ensures are { IfOk result (λ steps. (h n : ℕ) → slice_get steps.items h ≡ Some n
        → n ≡ first_steps code.now.section (started image.now inputs.now) h) }
{
    let harts = first_harts(alloc, image, inputs)?;
    let mut steps = Vec::new(alloc);
    'harts: for hart in &harts {
        steps.push(steps_of_hart(hart, code))?;
    }
    Ok(steps)
}
