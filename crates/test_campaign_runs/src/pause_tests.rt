//! Harts that say `pause`, by priorities: one that comes to it falls, and no other word lets it
//! fall, nor the same word where it is read and not executed.
use crate::plans::{Order, draw_of};
use machine::{Choice, Inputs, Machine};
use mem_flat::FlatStore;
use sched_draw::{Schedule, list_run};
use std::alloc::Global;
use test_images::writable_program;

// A loop of two harts, which counts how often it was taken, so no hart of it spins. In it stands a
// word.
struct Row {
    name: &'static str,
    words: &'static [u32],
    // Of each of the first choices, whether it is of the hart that was chosen first.
    firsts: [bool; 12],
}

// The first hart keeps its place.
const STAYS: [bool; 12] = [true; 12];

// Each hart falls with its `pause`, which is its second step, and then each third.
#[rattlefmt::skip]
const FALLS: [bool; 12] = [
    true, true, false, false, true, true, true, false, false, false, true, true,
];

#[rattlefmt::skip]
const ROWS: [Row; 6] = [
    Row { name: "pause", words: &[
        0x0012_8293, // 10000 addi t0, t0, 1
        0x0100_000f, // 10004 pause
        0xff9f_f06f, // 10008 jal zero, 10000
    ], firsts: FALLS },
    Row { name: "fence rw, rw", words: &[0x0012_8293, 0x0330_000f, 0xff9f_f06f], firsts: STAYS },
    Row { name: "fence w, w", words: &[0x0012_8293, 0x0110_000f, 0xff9f_f06f], firsts: STAYS },
    Row { name: "fence r, none", words: &[0x0012_8293, 0x0200_000f, 0xff9f_f06f], firsts: STAYS },
    Row { name: "fence w, none with rd", words: &[0x0012_8293, 0x0100_008f, 0xff9f_f06f], firsts: STAYS },
    Row { name: "pause as data", words: &[
        0x0000_0317, // 10000 auipc t1, 0
        0x0103_2383, // 10004 lw t2, 16(t1)
        0x0012_8293, // 10008 addi t0, t0, 1
        0xff9f_f06f, // 1000c jal zero, 10004
        0x0100_000f, // 10010
    ], firsts: STAYS },
];

// Whether each choice is of the hart that was chosen first, as in a row.
fn are_of(choices: &[Choice], firsts: &[bool]) -> bool {
    let Some(first) = choices.first() else {
        return false;
    };
    choices.len() == firsts.len()
        && choices
            .iter()
            .zip(firsts)
            .all(|(choice, same)| (choice.hart == first.hart) == *same)
}

// Whether a seed's choices by priorities, without change points, are as in a row.
fn is_chosen(alloc: Global, row: &Row, seed: u64) -> Option<bool> {
    let image = writable_program(alloc, row.words).ok()?;
    let inputs = Inputs::new(&[0, 0]).ok()?;
    let draw = draw_of(Order::Priorities)?;
    let schedule = Schedule::Seeded { seed, draw };
    let harts = inputs.harts();
    if !schedule.is_of_harts(harts) {
        return None;
    }
    let mut machine: Machine<FlatStore<Global>, Global> = Machine::start(
        alloc, &image, &inputs,
    ).ok()?;
    let choices = list_run(alloc, &mut machine, schedule, harts, 12).ok()?;
    Some(are_of(choices.as_slice(), &row.firsts))
}

#[test]
fn a_hart_falls_with_its_pause_alone(rt: HostRuntime) {
    for row in &ROWS {
        for seed in 1..9u64 {
            assert!(rt;
                is_chosen(rt.alloc(), row, seed) == Some(true),
                "{} {seed}",
                row.name
            );
        }
    }
}
