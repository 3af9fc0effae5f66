//! Whole outputs; outputs that are just long enough, and a byte too short.
use crate::worked::{Asked, CHOICES, ROWS, Wanted, made};
use page_calls::{Reply, Told};
use program_open::ProgramForm;
use std::alloc::{Allocator, Global};

// What an output has before a call.
const BEFORE: u8 = 170;

// Whether a call gives its answer in so much room, and nothing behind it.
fn is_answered(alloc: Global, asked: Asked, wanted: Wanted, room: usize) -> bool {
    let Ok(mut out) = Vec::from_elem(alloc, BEFORE, room) else {
        return false;
    };
    let reply = made(alloc, asked, &mut out);
    let length = wanted.text().len();
    reply == wanted.reply()
        && out.starts_with(wanted.text())
        && out.iter().skip(length).all(|byte| *byte == BEFORE)
}

// Whether a call has no room, and leaves the output as it was.
fn has_no_room(alloc: Global, asked: Asked, room: usize) -> bool {
    let Ok(mut out) = Vec::from_elem(alloc, BEFORE, room) else {
        return false;
    };
    made(alloc, asked, &mut out) == Reply::NoRoom && out.iter().all(|byte| *byte == BEFORE)
}

// Whether a call gives its answer where there is room, and else leaves the output as it was.
fn is_right(alloc: Global, asked: Asked, wanted: Wanted) -> bool {
    let length = wanted.text().len();
    is_answered(alloc, asked, wanted, length)
        && is_answered(alloc, asked, wanted, length.saturating_add(9))
        && has_no_room(alloc, asked, length.saturating_sub(1))
        && has_no_room(alloc, asked, 0)
}

// The number of the first row with another answer.
fn first_wrong(alloc: Global, rows: &[(Asked, Wanted)]) -> Option<usize> {
    for (row, (asked, wanted)) in rows.iter().enumerate() {
        if !is_right(alloc, *asked, *wanted) {
            return Some(row);
        }
    }
    None
}

#[test]
fn calls_answer(rt: HostRuntime) {
    assert_eq!(rt; first_wrong(rt.alloc(), &ROWS), None);
}

#[test]
fn calls_on_choices_answer(rt: HostRuntime) {
    assert_eq!(rt; first_wrong(rt.alloc(), &CHOICES), None);
}
