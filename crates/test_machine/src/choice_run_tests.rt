//! Tests what no clause says of the harts that a text chooses: that their list is made where memory
//! suffices, with each once.
use machine::Choice;
use sched_run::Chosen;
use std::alloc::{AllocError, Global};

fn count_at_first(alloc: Global) -> Result<usize, AllocError> {
    Ok(Chosen::new().choices(alloc)?.len())
}

#[test]
fn no_hart_is_chosen_at_first(rt: HostRuntime) {
    assert!(rt; count_at_first(rt.alloc()) == Ok(0));
}

/// Harts 0, 2 and 31.
#[rattlefmt::skip]
const THREE_HARTS: [Choice; 3] = [
    Choice { hart: 0, refuse: false },
    Choice { hart: 2, refuse: false },
    Choice { hart: 31, refuse: false },
];

// Whether the three are chosen, of which one was added twice.
fn are_three_chosen(alloc: Global) -> Result<bool, AllocError> {
    let mut chosen = Chosen::new();
    chosen.add(31);
    chosen.add(2);
    chosen.add(31);
    chosen.add(0);
    let choices = chosen.choices(alloc)?;
    Ok(choices.as_slice() == THREE_HARTS.as_slice())
}

#[test]
fn each_hart_is_chosen_once(rt: HostRuntime) {
    assert!(rt; are_three_chosen(rt.alloc()) == Ok(true));
}
