//! A book, and its segments.
ghost use Rattle.std.specs.Prelude.{◌≡◌, ◌<◌, [], length, Some, IfOk, IfErr};
ghost use Rattle.hart_step.specs.Hart.{hart_of};
ghost use Rattle.machine.specs.State.{state};
ghost use Rattle.thread_book.specs.Book.{IsSoundBook, replayed, world_of, hart_in_book};
ghost use Rattle.thread_book.specs.Present.{IsFresh, GivesNone};

use crate::fault::SegmentFault;
use crate::segment::Segment;
use hart_local::Code;
use hart_step::Hart;
use history::Entry;
use image::Image;
use machine::{Inputs, Machine};
use mem_flat::FlatStore;
use std::alloc::{AllocError, Allocator};
use std::marker::Model;
use std::sync::Arc;

/// A program, its harts' inputs, the history of its harts, and a machine in the world that the
/// history's choices lead to from the start.
#[derive(Drop)]
pub struct Book<A: Allocator> {
    pub(crate) image: Image<A>,
    pub(crate) inputs: Inputs,
    pub(crate) code: Arc<Code<A>, A>,
    pub(crate) machine: Machine<FlatStore<A>, A>,
    pub(crate) history: Vec<Entry, A>,
}

impl<A: Allocator> Model for Book<A> {
    ghost use Rattle.std.specs.Arc.{arc_value};
    ghost use Rattle.machine.specs.State.{state};
    ghost use Rattle.thread_book.specs.Book.{BookValue};
    ghost use Rattle.thread_book.specs.Kept.{IsBookKept};

    ghost Value = { BookValue };

    ghost view = { λ b. record {
      image = b.image;
      inputs = b.inputs;
      history = b.history.items;
    } };

    ghost invariant = { λ b. IsBookKept b.image b.inputs b.history.items
        (arc_value b.code) (state b.machine) };
}

impl<A: Allocator> Book<A> {
    /// A book with an empty history, for a program with a hart for each input. Fails when out of
    /// memory.
    pub fn new(alloc: A, image: Image<A>, inputs: Inputs) -> Result<Book<A>, AllocError>
    where
        A: Copy,
        ensures { IfOk result (λ b. b ≡ record { image = image; inputs = inputs; history = [] }) }
    {
        // What both are known to be is part of what the book keeps.
        let _ = image.segments();
        let _ = inputs.words();
        let machine = Machine::start(alloc, &image, &inputs)?;
        let code = Code::new(alloc, &image)?;
        let code = Arc::new(alloc, code)?;
        Ok(Book {
            image,
            inputs,
            code,
            machine,
            history: Vec::new(alloc),
        })
    }

    /// The program.
    pub fn image(&self) -> &Image<A>
        ensures { result.now ≡ self.now.image }
    {
        &self.image
    }

    /// The harts' inputs.
    pub fn inputs(&self) -> &Inputs
        ensures { result.now ≡ self.now.inputs }
    {
        &self.inputs
    }

    /// The history: its entries in order.
    pub fn history(&self) -> &[Entry]
        ensures { result.now ≡ self.now.history }
    {
        &self.history
    }

    /// The machine after the history.
    pub fn machine(&self) -> &Machine<FlatStore<A>, A>
        ensures { state result.now ≡ world_of self.now }
    {
        &self.machine
    }

    /// One hart after the history.
    pub fn hart(&self, number: usize) -> &Hart
        requires { number < length self.now.inputs }
        ensures { hart_in_book self.now number ≡ Some (hart_of result.now) }
    {
        self.machine.hart(number)
    }

    /// The image and the inputs that the book was made of, the machine, and the history that leads
    /// to its world.
    pub fn into_parts(self) -> (Image<A>, Inputs, Machine<FlatStore<A>, A>, Vec<Entry, A>)
        ensures parts { self ≡ record {
          image = result.0;
          inputs = result.1;
          history = result.3.items;
        } }
        ensures replay { state result.2 ≡ replayed result.0 result.1 result.3.items }
    {
        let Book {
            image,
            inputs,
            code,
            machine,
            history,
        } = self;
        drop(code);
        (image, inputs, machine, history)
    }

    /// An empty segment of a hart, as the hart is in the book.
    pub fn segment(&self, hart: u32) -> Result<Segment<A>, SegmentFault>
        ensures ok { IfOk result (λ s. IsFresh self.now hart s) }
        ensures there { IfOk result (λ _. hart < length self.now.inputs) }
        ensures fault { IfErr result (λ fault. GivesNone self.now hart fault) }
    {
        if hart >= self.inputs.harts() {
            return Err(SegmentFault::NoHart);
        }
        let Ok(code) = Arc::try_clone(&self.code) else {
            return Err(SegmentFault::Memory);
        };
        let slot = *self.hart(hart as usize);
        Ok(Segment {
            hart,
            slot,
            code,
            local: 0,
            reached: slot,
            refuse: false,
        })
    }
}

/// Each book is of a sound image and of inputs that a machine takes, and its entries are of their
/// harts.
pub fn each_book_is_sound<A: Allocator>(book: &Book<A>)
    ensures { IsSoundBook book.now }
{
    // Reading a field gives the proof the invariant.
    let _ = &book.history;
}
