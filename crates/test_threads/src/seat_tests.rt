//! What no clause says of seats: that they are had and committed to the shared book where memory is
//! left, worked histories, and refused memory.
use crate::images::{LR_SC, SWAP, book_of};
use hart_step::HartState;
use history::print_history;
use object_library::Kind;
use std::alloc::{Allocator, Global};
use std::sync::Wait;
use test_images::Program;
use thread_book::SegmentFault;
use thread_run::{CommitFault, Seat, Shared};

const ADD: Program = Program::Object(Kind::Add);

const JUMP_TO_ITSELF: [u32; 1] = [0x0000_006f];

const LOOP: Program = Program::Writable(&JUMP_TO_ITSELF);

// The book of a program with a hart for each input, shared.
fn shared_of<A: Allocator + Copy>(alloc: A, program: Program, inputs: &[u32]) -> Option<Shared<A>> {
    let book = book_of(alloc, program, inputs)?;
    Some(Shared::new(book))
}

/// The book of Swap with two inputs, shared.
pub(crate) fn shared_swap<A: Allocator + Copy>(alloc: A) -> Option<Shared<A>> {
    shared_of(alloc, SWAP, &[7, 9])
}

// Whether a shared book has this history in the end.
fn has_history(alloc: Global, shared: Shared<Global>, wanted: &str) -> Option<bool> {
    let book = shared.into_book();
    let text = print_history(alloc, book.history()).ok()?;
    Some(text.as_str() == wanted)
}

// Two seats of one hart, of which the first is committed: the program and its inputs, the local
// steps of the second seat, how its commit is refused, its local steps behind that, and the
// history.
struct TwoSeats {
    program: Program,
    inputs: &'static [u32],
    local: u32,
    refused: Option<CommitFault>,
    left: u32,
    history: &'static str,
}

#[rattlefmt::skip]
const STALE: TwoSeats = TwoSeats {
    program: SWAP, inputs: &[7, 9], local: 2, refused: Some(CommitFault::Stale), left: 2,
    history: "0+0\n",
};

// A jump to itself leaves the slot as it was, so that the other seat still fits.
#[rattlefmt::skip]
const FITS: TwoSeats = TwoSeats {
    program: LOOP, inputs: &[7], local: 0, refused: None, left: 0, history: "0+0 0+0\n",
};

// Whether two seats of hart 0 are committed, one behind the other, as they are to be.
fn are_committed<R: Wait>(rt: &R, shared: &Shared<Global>, wanted: &TwoSeats) -> Option<bool> {
    let mut one = shared.seat(rt, 0).ok()?;
    let mut two = shared.seat(rt, 0).ok()?;
    let is_ahead = two.advance_local(wanted.local) == wanted.local;
    let is_first = one.commit(rt, shared, false) == Ok(());
    let is_second = two.commit(rt, shared, false).err() == wanted.refused;
    Some(is_ahead && is_first && is_second && two.local() == wanted.left)
}

// Whether two seats of a program are committed as they are to be, with this history.
fn leave_history<R: Wait>(rt: &R, alloc: Global, wanted: &TwoSeats) -> Option<bool> {
    let shared = shared_of(alloc, wanted.program, wanted.inputs)?;
    let is_right = are_committed(rt, &shared, wanted)?;
    let is_history = has_history(alloc, shared, wanted.history)?;
    Some(is_right && is_history)
}

#[test]
fn second_of_two_seats_is_stale(rt: HostRuntime) {
    assert!(rt; leave_history(&rt, rt.alloc(), &STALE) == Some(true));
}

#[test]
fn both_seats_of_a_loop_are_committed(rt: HostRuntime) {
    assert!(rt; leave_history(&rt, rt.alloc(), &FITS) == Some(true));
}

// A seat that goes into another book: the inputs of the book of Swap in which it is had, its hart,
// the other book, and whether that refuses the seat.
struct Across {
    name: &'static str,
    inputs: &'static [u32],
    hart: u32,
    program: Program,
    others: &'static [u32],
    refused: Option<CommitFault>,
}

#[rattlefmt::skip]
const ACROSS: [Across; 6] = [
    Across { name: "the same inputs", inputs: &[7, 9], hart: 0, program: SWAP, others: &[7, 9],
        refused: None },
    Across { name: "another hart's input", inputs: &[7, 9], hart: 1, program: SWAP, others: &[8, 9],
        refused: None },
    Across { name: "another input", inputs: &[7, 9], hart: 0, program: SWAP, others: &[8, 9],
        refused: Some(CommitFault::Stale) },
    Across { name: "a hart more", inputs: &[7, 9], hart: 0, program: SWAP, others: &[7, 9, 5],
        refused: Some(CommitFault::Stale) },
    Across { name: "no such hart", inputs: &[7, 9], hart: 1, program: SWAP, others: &[7],
        refused: Some(CommitFault::Stale) },
    Across { name: "another program", inputs: &[7, 9], hart: 0, program: ADD, others: &[7, 9],
        refused: Some(CommitFault::Stale) },
];

// Whether a seat with two local steps is committed to another book as the row says.
fn is_taken<R: Wait>(
    rt: &R,
    seat: &mut Seat<Global>,
    other: &Shared<Global>,
    row: &Across,
) -> bool {
    let left: u32 = if row.refused.is_some() { 2 } else { 0 };
    seat.advance_local(2) == 2
        && seat.commit(rt, other, false).err() == row.refused
        && seat.local() == left
}

// How many entries a shared book has in the end.
fn entries_of(shared: Shared<Global>) -> usize {
    let book = shared.into_book();
    book.history().len()
}

// Whether a seat goes into another book, or is refused there, as the row says, and nothing comes
// into its own.
fn goes_across<R: Wait>(rt: &R, alloc: Global, row: &Across) -> Option<bool> {
    let home = shared_of(alloc, SWAP, row.inputs)?;
    let other = shared_of(alloc, row.program, row.others)?;
    let mut seat = home.seat(rt, row.hart).ok()?;
    let is_right = is_taken(rt, &mut seat, &other, row);
    let entries: usize = if row.refused.is_some() { 0 } else { 1 };
    let is_there = entries_of(other) == entries;
    let is_nothing_here = entries_of(home) == 0;
    Some(is_right && is_there && is_nothing_here)
}

#[test]
fn a_seat_goes_into_any_book_that_it_fits(rt: HostRuntime) {
    for row in &ACROSS {
        let name = row.name;
        assert!(rt; goes_across(&rt, rt.alloc(), row) == Some(true), "{name}");
    }
}

// Lets a hart run until it stops, and says whether it has, in seats of its own.
fn has_run<R: Wait>(rt: &R, shared: &Shared<Global>, hart: u32) -> bool {
    let Ok(mut seat) = shared.seat(rt, hart) else {
        return false;
    };
    for _ in 0..20 {
        if seat.hart() != hart {
            return false;
        }
        if seat.slot().state != HartState::Running {
            return true;
        }
        seat.advance_local(u32::MAX);
        if seat.commit(rt, shared, false).is_err() {
            return false;
        }
    }
    false
}

// Whether three harts run while a seat of hart 0 waits, and hart 0 behind them.
fn have_run<R: Wait>(rt: &R, shared: &Shared<Global>) -> bool {
    let Ok(mut waiting) = shared.seat(rt, 0) else {
        return false;
    };
    waiting.advance_local(u32::MAX);
    has_run(rt, shared, 1)
        && has_run(rt, shared, 2)
        && has_run(rt, shared, 3)
        && waiting.commit(rt, shared, false) == Ok(())
        && has_run(rt, shared, 0)
}

// Whether all four harts exit with 5, though a seat of one waits.
fn agree_behind_a_seat<R: Wait>(rt: &R, alloc: Global) -> Option<bool> {
    let shared = shared_of(alloc, LR_SC, &[3, 5, 7, 9])?;
    let have_run = have_run(rt, &shared);
    let book = shared.into_book();
    let ends = book.machine().ends();
    let agree = ends.iter().all(|hart| hart.state == HartState::Exited(5));
    Some(have_run && agree)
}

#[test]
fn a_seat_that_waits_holds_up_nobody(rt: HostRuntime) {
    assert!(rt; agree_behind_a_seat(&rt, rt.alloc()) == Some(true));
}

// Whether harts 1 and 0 run in seats, with the history that is worked by hand.
fn fill_the_book<R: Wait>(rt: &R, alloc: Global) -> Option<bool> {
    let shared = shared_swap(alloc)?;
    let have_run = has_run(rt, &shared, 1) && has_run(rt, &shared, 0);
    let is_history = has_history(alloc, shared, "1+3 1+1 1+4 0+3 0+1 0+4 0+3\n")?;
    Some(have_run && is_history)
}

#[test]
fn seats_go_into_the_shared_book(rt: HostRuntime) {
    assert!(rt; fill_the_book(&rt, rt.alloc()) == Some(true));
}

// Whether a seat of a hart is refused since the hart isn't there.
fn is_not_there<R: Wait>(rt: &R, shared: &Shared<Global>, hart: u32) -> bool {
    shared.seat(rt, hart).err() == Some(SegmentFault::NoHart)
}

// Whether the harts behind the second one aren't there.
fn are_two<R: Wait>(rt: &R, alloc: Global) -> Option<bool> {
    let shared = shared_swap(alloc)?;
    Some(is_not_there(rt, &shared, 2) && is_not_there(rt, &shared, u32::MAX))
}

#[test]
fn hart_that_is_not_there_has_no_seat(rt: HostRuntime) {
    assert!(rt; are_two(&rt, rt.alloc()) == Some(true));
}
