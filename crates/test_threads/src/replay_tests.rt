//! What no clause says of the harts that a history chooses: that their list is had where memory is
//! left, and each once.
use history::{chosen_harts, read_history};
use machine::Choice;
use std::alloc::Global;

#[rattlefmt::skip]
const CHOSEN: [Choice; 2] = [
    Choice { hart: 2, refuse: false },
    Choice { hart: 0, refuse: false },
];

// Whether a history of two harts chooses each once, in the order of their first entries.
fn are_chosen(alloc: Global) -> Option<bool> {
    let history = read_history(alloc, b"2+3 0+1! 2+0 0+4", 3).ok()?;
    let chosen = chosen_harts(alloc, &history).ok()?;
    Some(chosen.as_slice() == CHOSEN.as_slice())
}

#[test]
fn each_hart_is_chosen_once(rt: HostRuntime) {
    assert!(rt; are_chosen(rt.alloc()) == Some(true));
}
