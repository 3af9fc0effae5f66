//! On which words the harts of a run that hangs wait, and which steps changed these last.

use cmd_properties::take_step;
use hart_step::{AccessKind, Hart, HartState, access_by};
use isa_decode::decode;
use machine::{Choice, Machine};
use mem_flat::FlatStore;
use mem_store::Store;
use property_judge::word_read;
use std::alloc::{AllocError, Allocator};

// The most steps of a loop that is looked for.
const LONGEST: usize = 1000;

// The most words of one hart that are told.
const MOST_WORDS: usize = 3;

/// The step that changed a word last.
#[derive(Clone, Copy)]
pub(crate) struct Changed {
    /// The number of its choice, from 0; of a further step it is the number of choices or more.
    pub(crate) choice: usize,
    /// Its hart's number.
    pub(crate) hart: usize,
    /// The address of its instruction.
    pub(crate) pc: u32,
}

/// A word that a hart loads in the loop that it doesn't leave.
#[derive(Clone, Copy)]
pub(crate) struct Wait {
    /// The hart's number.
    pub(crate) hart: usize,
    /// The word's address.
    pub(crate) word: u32,
    /// The word's value so far.
    pub(crate) value: u32,
    /// The step that changed it last so far, if one has.
    pub(crate) changed: Option<Changed>,
}

// A hart by its number, if it runs.
fn running_hart<A: Allocator>(machine: &Machine<FlatStore<A>, A>, number: usize) -> Option<&Hart> {
    let hart = machine.ends().get(number)?;
    match hart.state {
        HartState::Running => Some(hart),
        HartState::Exited(_) | HartState::Faulted(_) => None,
    }
}

// The word that a hart's next step loads, if it loads one.
fn next_loaded<A: Allocator>(machine: &Machine<FlatStore<A>, A>, number: usize) -> Option<u32> {
    let hart = running_hart(machine, number)?;
    let instr = decode(machine.store().fetch(hart.pc)?)?;
    let access = access_by(hart, instr)?;
    match access.kind {
        AccessKind::Load | AccessKind::LoadReserved | AccessKind::Amo => {
            Some(access.address / 4 * 4)
        }
        AccessKind::Store | AccessKind::StoreConditional => None,
    }
}

// Adds a word to those of a loop, unless it is among them or they are as many as are told.
fn add_word<A: Allocator>(words: &mut Vec<u32, A>, word: u32) -> Result<(), AllocError> {
    if words.len() < MOST_WORDS && !words.contains(&word) {
        words.push(word)?;
    }
    Ok(())
}

/// The words that a hart loads in its loop, alone: it comes back to the same place with the same
/// registers. `None` if it doesn't within 1000 steps, or out of memory.
pub(crate) fn words_of_loop<A: Allocator + Copy>(
    alloc: A,
    machine: &Machine<FlatStore<A>, A>,
    number: usize,
) -> Option<Vec<u32, A>> {
    let mut copy = machine.copy(alloc).ok()?;
    let begun = *running_hart(&copy, number)?;
    let mut words = Vec::new(alloc);
    for _ in 0..LONGEST {
        if let Some(word) = next_loaded(&copy, number) {
            add_word(&mut words, word).ok()?;
        }
        take_step(&mut copy, plain_choice(number)?);
        if *running_hart(&copy, number)? == begun {
            return Some(words);
        }
    }
    None
}

/// The choice of a hart whose store-conditional isn't refused; `None` if its number is too large.
pub(crate) fn plain_choice(number: usize) -> Option<Choice> {
    let hart = u32::try_from(number).ok()?;
    Some(Choice {
        hart,
        refuse: false,
    })
}

/// Takes in the values of the words, which no step has changed so far.
pub(crate) fn begin_waits<A: Allocator>(machine: &Machine<FlatStore<A>, A>, waits: &mut [Wait]) {
    for wait in waits.iter_mut() {
        wait.value = word_read(machine.store(), wait.word);
    }
}

/// Does a choice, whose number is `choice_number`, and notes which of the words it changes.
pub(crate) fn follow_step<A: Allocator>(
    machine: &mut Machine<FlatStore<A>, A>,
    choice: Choice,
    choice_number: usize,
    waits: &mut [Wait],
) {
    let hart = choice.hart as usize;
    let Some(pc) = machine.ends().get(hart).map(|hart| hart.pc) else {
        return;
    };
    take_step(machine, choice);
    for wait in waits.iter_mut() {
        let value = word_read(machine.store(), wait.word);
        if value != wait.value {
            wait.value = value;
            wait.changed = Some(Changed {
                choice: choice_number,
                hart,
                pc,
            });
        }
    }
}
