//! What an image tells of a hart's next step.
ghost use Rattle.mem_store.specs.Image.{image_memory};
ghost use Rattle.hart_step.specs.Hart.{hart_of};
ghost use Rattle.explore_sites.specs.Touches.{TellsTouch};

use bank_step::{PlannedTouch, needed_word, planned_touch};
use hart_step::Hart;
use image::Image;
use std::alloc::Allocator;

/// What a hart's next step touches, by its image alone.
#[derive(Clone, Copy, PartialEq, Eq)]
pub enum NextTouch {
    /// The instruction stands in a word that may be written, so the image doesn't tell.
    Unknown,
    /// No word: the hart has stopped, its instruction touches none, or it faults.
    Nothing,
    /// This word.
    Word(PlannedTouch),
}

/// What a hart's next step touches, if no word must be read to know its instruction.
pub fn next_touch<A: Allocator>(hart: &Hart, image: &Image<A>) -> NextTouch
    ensures { TellsTouch (image_memory image.now) (hart_of hart.now) result }
{
    if needed_word(hart, image).is_some() {
        return NextTouch::Unknown;
    }
    match planned_touch(hart, image, None) {
        Some(touch) => NextTouch::Word(touch),
        None => NextTouch::Nothing,
    }
}
