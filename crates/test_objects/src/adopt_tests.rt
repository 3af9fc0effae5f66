//! A hart of AdoptCommit that runs alone.

use crate::stepping::{started, take_steps};
use hart_step::{Hart, HartState};
use object_adopt::adopt_image;
use std::alloc::{AllocError, Global};

/// A hart that is chosen alone, and at which of its steps it ends with its input.
struct Alone {
    inputs: &'static [u32],
    hart: u32,
    last: u32,
}

/// The hart behind so many of its steps.
fn hart_after(alloc: Global, row: &Alone, steps: u32) -> Result<Option<Hart>, AllocError> {
    let image = adopt_image(alloc)?;
    let mut machine = started(alloc, &image, row.inputs)?;
    take_steps(&mut machine, row.hart, steps)?;
    Ok(machine.ends().get(row.hart as usize).copied())
}

/// Whether a hart is in a state, and commits to its input.
fn commits(hart: Option<Hart>, state: HartState, input: u32) -> bool {
    hart.is_some_and(|hart| {
        hart.state == state && hart.registers[10] == input && hart.registers[11] == 1
    })
}

/// Whether the hart runs a step before its last one, and has ended behind it; none where there is
/// no such hart.
fn ends_alone(alloc: Global, row: &Alone) -> Option<bool> {
    let input = *row.inputs.get(row.hart as usize)?;
    let before = hart_after(alloc, row, row.last.saturating_sub(1)).ok()?;
    let behind = hart_after(alloc, row, row.last).ok()?;
    Some(
        commits(before, HartState::Running, input)
            && commits(behind, HartState::Exited(input), input),
    )
}

/// The inputs of eight harts.
const EIGHT: [u32; 8] = [20, 21, 22, 23, 24, 25, 26, 27];

/// The inputs of as many harts as there may be.
const THIRTY_TWO: [u32; 32] = [
    100, 101, 102, 103, 104, 105, 106, 107, 108, 109, 110, 111, 112, 113, 114, 115, 116, 117, 118,
    119, 120, 121, 122, 123, 124, 125, 126, 127, 128, 129, 130, 131,
];

// 31 instructions with one hart, and for each further record, which is empty, four in either loop.
#[rattlefmt::skip]
const ALONE: [Alone; 11] = [
    Alone { inputs: &EIGHT, hart: 0, last: 87 },
    Alone { inputs: &EIGHT, hart: 1, last: 87 },
    Alone { inputs: &EIGHT, hart: 2, last: 87 },
    Alone { inputs: &EIGHT, hart: 3, last: 87 },
    Alone { inputs: &EIGHT, hart: 4, last: 87 },
    Alone { inputs: &EIGHT, hart: 5, last: 87 },
    Alone { inputs: &EIGHT, hart: 6, last: 87 },
    Alone { inputs: &EIGHT, hart: 7, last: 87 },
    Alone { inputs: &THIRTY_TWO, hart: 0, last: 279 },
    Alone { inputs: &THIRTY_TWO, hart: 5, last: 279 },
    Alone { inputs: &THIRTY_TWO, hart: 31, last: 279 },
];

#[test]
fn hart_ends_alone_at_its_last_step(rt: HostRuntime) {
    for row in &ALONE {
        let hart = row.hart;
        assert!(rt; ends_alone(rt.alloc(), row) == Some(true), "hart {hart}");
    }
}
