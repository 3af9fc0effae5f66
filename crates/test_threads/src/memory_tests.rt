//! What no clause says of books and seats: that want of memory is told only where a request was
//! refused, once or for good, and leaves all as it was, so that the same call succeeds once memory
//! is back.
use crate::images::{SWAP, book_of};
use crate::seat_tests::shared_swap;
use std::alloc::{AllocError, Allocator, Global};
use std::sync::Wait;
use test_refusing::{Call, tried};
use thread_book::{Book, PresentFault, Segment, SegmentFault};
use thread_run::{CommitFault, Seat, Shared};

// Presents a segment of three local steps: whether it is in the book.
fn present_one<A: Allocator + Copy>(
    book: &mut Book<A>,
    segment: &mut Segment<A>,
) -> Result<bool, AllocError> {
    match book.present(segment) {
        Ok(()) => Ok(book.history().len() == 1 && segment.local() == 0),
        Err(PresentFault::Memory) if book.history().is_empty() && segment.local() == 3 => {
            match book.present(segment) {
                Ok(()) | Err(PresentFault::Memory) => Err(AllocError),
                Err(_) => Ok(false),
            }
        }
        Err(_) => Ok(false),
    }
}

// A segment of three local steps and one more is presented.
#[derive(Drop)]
struct Presented;

impl Call for Presented {
    fn answer<A: Allocator + Copy>(&self, alloc: A, _host: Global) -> Result<bool, AllocError> {
        let mut book = book_of(alloc, SWAP, &[7, 9]).ok_or(AllocError)?;
        let Ok(mut segment) = book.segment(0) else {
            return Err(AllocError);
        };
        segment.advance(u32::MAX);
        present_one(&mut book, &mut segment)
    }
}

// Commits a seat with three local steps: whether it has none then.
fn commit_one<A: Allocator + Copy, R: Wait>(
    rt: &R,
    shared: &Shared<A>,
    seat: &mut Seat<A>,
) -> Result<bool, AllocError> {
    match seat.commit(rt, shared, false) {
        Ok(()) => Ok(seat.local() == 0),
        Err(CommitFault::Memory) if seat.local() == 3 => match seat.commit(rt, shared, false) {
            Ok(()) | Err(CommitFault::Memory) => Err(AllocError),
            Err(_) => Ok(false),
        },
        Err(_) => Ok(false),
    }
}

// A seat with as many is committed.
#[derive(Drop)]
struct Committed<'a, R> {
    rt: &'a R,
}

impl<'a, R: Wait> Call for Committed<'a, R> {
    fn answer<A: Allocator + Copy>(&self, alloc: A, _host: Global) -> Result<bool, AllocError> {
        let shared = shared_swap(alloc).ok_or(AllocError)?;
        let mut seat = match shared.seat(self.rt, 0) {
            Ok(seat) => seat,
            Err(SegmentFault::Memory) => return Err(AllocError),
            Err(_) => return Ok(false),
        };
        seat.advance_local(u32::MAX);
        commit_one(self.rt, &shared, &mut seat)
    }
}

#[test]
fn a_book_tells_want_of_memory(rt: HostRuntime) {
    assert!(rt; tried(rt.alloc(), &Presented) == Ok(()));
}

#[test]
fn a_seat_tells_want_of_memory(rt: HostRuntime) {
    assert!(rt; tried(rt.alloc(), &Committed { rt: &rt }) == Ok(()));
}
