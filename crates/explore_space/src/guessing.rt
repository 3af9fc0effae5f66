//! A guess which words belong to one hart each. A wrong guess only makes a search begin anew, so no
//! contract speaks of it.
use crate::own_words::OwnWord;
use bank_step::is_unwritable;
use explore_sites::{NextTouch, next_touch};
use hart_step::HartState;
use image::Image;
use indexmap::IndexMap;
use machine::{Choice, Inputs, Machine};
use mem_flat::FlatStore;
use std::alloc::{AllocError, Allocator};
use std::hash::{BuildHasherDefault, FoldHasher};

// How many steps of each hart a guess looks at.
const STEPS: u32 = 4096;

// Words that harts have touched: each with its hart, if it is one alone.
type Touched<A> = IndexMap<u32, Option<u32>, BuildHasherDefault<FoldHasher>, A>;

// Notes that a hart touches a word.
fn note<A: Allocator + Copy>(
    touched: &mut Touched<A>,
    word: u32,
    hart: u32,
) -> Result<(), AllocError> {
    let alone = match touched.get(&word) {
        None => true,
        Some(owner) => *owner == Some(hart),
    };
    touched.insert(word, if alone { Some(hart) } else { None })?;
    Ok(())
}

// Takes a hart's next step and notes what it touches, if that may be written: whether the hart ran.
fn noted_step<A: Allocator + Copy>(
    machine: &mut Machine<FlatStore<A>, A>,
    image: &Image<A>,
    touched: &mut Touched<A>,
    number: u32,
) -> Result<bool, AllocError> {
    if number as usize >= machine.harts() {
        return Ok(false);
    }
    let hart = machine.hart(number as usize);
    if hart.state != HartState::Running {
        return Ok(false);
    }
    if let NextTouch::Word(touch) = next_touch(hart, image) {
        if !is_unwritable(image.segments(), touch.word) {
            note(touched, touch.word, number)?;
        }
    }
    machine.step(Choice {
        hart: number,
        refuse: false,
    })?;
    Ok(true)
}

// Runs all harts by turns.
fn note_turns<A: Allocator + Copy>(
    alloc: A,
    image: &Image<A>,
    inputs: &Inputs,
    touched: &mut Touched<A>,
) -> Result<(), AllocError> {
    let mut machine: Machine<FlatStore<A>, A> = Machine::start(alloc, image, inputs)?;
    for _ in 0..STEPS {
        let mut runs = false;
        for number in 0..inputs.harts() {
            runs |= noted_step(&mut machine, image, touched, number)?;
        }
        if !runs {
            return Ok(());
        }
    }
    Ok(())
}

// Runs one hart alone.
fn note_alone<A: Allocator + Copy>(
    alloc: A,
    image: &Image<A>,
    inputs: &Inputs,
    touched: &mut Touched<A>,
    number: u32,
) -> Result<(), AllocError> {
    let mut machine: Machine<FlatStore<A>, A> = Machine::start(alloc, image, inputs)?;
    for _ in 0..STEPS {
        if !noted_step(&mut machine, image, touched, number)? {
            return Ok(());
        }
    }
    Ok(())
}

/// The words that may be written and one hart alone touches where all harts run by turns, and where
/// each runs alone, 4,096 steps of each hart at most. Fails when out of memory.
pub fn guessed_words<A: Allocator + Copy>(
    alloc: A,
    image: &Image<A>,
    inputs: &Inputs,
) -> Result<Vec<OwnWord, A>, AllocError> {
    let mut touched = Touched::new(alloc);
    note_turns(alloc, image, inputs, &mut touched)?;
    for number in 0..inputs.harts() {
        note_alone(alloc, image, inputs, &mut touched, number)?;
    }
    let mut words = Vec::new(alloc);
    for (word, owner) in &touched {
        if let Some(hart) = owner {
            words.push(OwnWord {
                word: *word,
                hart: *hart,
            })?;
        }
    }
    Ok(words)
}
