//! A book that threads share.
ghost use Rattle.std.specs.Prelude.{IfOk, IfErr};
ghost use Rattle.thread_run.specs.Seat.{IsSeated, IsUnseated};

use crate::seat::Seat;
use std::alloc::Allocator;
use std::sync::{Mutex, Wait};
use thread_book::{Book, SegmentFault};

/// A book under one lock. Under the lock the book is always in the world that its history leads to.
#[derive(Drop)]
pub struct Shared<A: Allocator> {
    pub(crate) book: Mutex<Book<A>>,
}

impl<A: Allocator> Shared<A> {
    /// Puts a book under a lock of its own.
    pub fn new(book: Book<A>) -> Shared<A> {
        Shared {
            book: Mutex::new(book),
        }
    }

    /// The book, with all commits.
    pub fn into_book(self) -> Book<A> {
        let Shared { book } = self;
        book.into_inner()
    }

    /// A seat for a hart, as the hart is in the book at that moment. Fails if the book has no such
    /// hart, or when out of memory.
    pub fn seat<R: Wait>(&self, rt: &R, hart: u32) -> Result<Seat<A>, SegmentFault>
        ensures seated { IfOk result (λ seat. IsSeated hart seat) }
        ensures fault { IfErr result (λ fault. IsUnseated hart fault) }
    {
        let guard = self.book.lock(rt);
        match Seat::of(&guard, hart) {
            Ok(seat) => Ok(seat),
            Err(fault) => Err(fault),
        }
    }
}
