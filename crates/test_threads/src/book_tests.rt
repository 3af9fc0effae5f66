//! What no clause says of books: that segments are taken where memory is left; worked histories.
use crate::images::{LR_SC, STORE_AND_LOAD, SWAP, book_of};
use hart_step::HartState;
use history::print_history;
use std::alloc::Global;
use test_images::Program;
use thread_book::{Book, PresentFault, Segment};

// Lets a hart run until it stops; each segment is as long as it can be. The step behind the local
// ones of one entry, told by its place in the history, is refused its store-conditional.
fn run_out(book: &mut Book<Global>, hart: u32, refused: usize) -> Result<(), PresentFault> {
    let Ok(mut segment) = book.segment(hart) else {
        return Err(PresentFault::NoHart);
    };
    for _ in 0..20 {
        if segment.reached().state != HartState::Running {
            break;
        }
        segment.advance(u32::MAX);
        segment.set_refuse(book.history().len() == refused);
        book.present(&mut segment)?;
    }
    Ok(())
}

// The place of no entry.
const NONE: usize = usize::MAX;

// A run in segments: its program, the inputs, the harts in the order in which they run, the entry
// whose store-conditional is refused, the history, and what hart 0 exits with.
struct Run {
    program: Program,
    inputs: &'static [u32],
    harts: &'static [u32],
    refused: usize,
    history: &'static str,
    status: u32,
}

#[rattlefmt::skip]
const RUNS: [Run; 4] = [
    Run { program: SWAP, inputs: &[7, 9], harts: &[1, 0], refused: NONE,
        history: "1+3 1+1 1+4 0+3 0+1 0+4 0+3\n", status: 9 },
    Run { program: LR_SC, inputs: &[6], harts: &[0], refused: 2,
        history: "0+3 0+1 0+1! 0+1 0+1 0+4 0+2\n", status: 6 },
    Run { program: Program::Writable(&STORE_AND_LOAD), inputs: &[5], harts: &[0], refused: NONE,
        history: "0+0 0+0 0+0 0+0 0+0\n", status: 5 },
    Run { program: Program::Writable(&STORE_AND_LOAD), inputs: &[5, 8], harts: &[1, 0],
        refused: NONE, history: "1+0 1+0 1+0 1+0 1+0 0+0 0+0 0+0 0+0 0+0\n", status: 5 },
];

// The book of a run; None where something is refused.
fn book_after(alloc: Global, run: &Run) -> Option<Book<Global>> {
    let mut book = book_of(alloc, run.program, run.inputs)?;
    for hart in run.harts {
        run_out(&mut book, *hart, run.refused).ok()?;
    }
    Some(book)
}

// Whether a book has the history of a run, and its hart 0 is where that run ends.
fn is_after(alloc: Global, book: &Book<Global>, run: &Run) -> Option<bool> {
    let text = print_history(alloc, book.history()).ok()?;
    let first = book.machine().ends().first().map(|hart| hart.state);
    Some(text.as_str() == run.history && first == Some(HartState::Exited(run.status)))
}

// Whether a run has its history and its end; None where something is refused.
fn runs_so(alloc: Global, run: &Run) -> Option<bool> {
    let book = book_after(alloc, run)?;
    is_after(alloc, &book, run)
}

#[test]
fn harts_run_in_segments(rt: HostRuntime) {
    for run in &RUNS {
        let history = run.history;
        assert!(rt; runs_so(rt.alloc(), run) == Some(true), "{history}");
    }
}

// Of a limit, how many steps are done, and their count after it.
const LIMITS: [(u32, u32, u32); 6] = [
    (0, 0, 0),
    (1, 1, 1),
    (1, 0, 1),
    (2, 1, 2),
    (9, 1, 3),
    (9, 0, 3),
];

// Whether a segment goes on within each limit.
fn keeps_limits(segment: &mut Segment<Global>) -> bool {
    for (limit, done, count) in &LIMITS {
        if segment.advance(*limit) != *done || segment.local() != *count {
            return false;
        }
    }
    true
}

// Whether a segment keeps its limits, and is presented.
fn is_presented_within_limits(alloc: Global) -> Option<bool> {
    let mut book = book_of(alloc, SWAP, &[7, 9])?;
    let mut segment = book.segment(0).ok()?;
    let is_within = keeps_limits(&mut segment);
    Some(is_within && book.present(&mut segment) == Ok(()) && segment.local() == 0)
}

#[test]
fn a_segment_stops_at_its_limit(rt: HostRuntime) {
    assert!(rt; is_presented_within_limits(rt.alloc()) == Some(true));
}
