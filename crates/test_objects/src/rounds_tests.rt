//! The image of Rounds, and runs of one and of two harts.

use crate::stepping::{PlainMachine, started, take_step, take_steps};
use hart_step::{Hart, HartState};
use object_adopt::rounds_image;
use object_library::{Kind, certify};
use std::alloc::{AllocError, Global};

/// Whether the image is of a kind.
fn is_of_kind(alloc: Global, kind: Kind) -> Result<bool, AllocError> {
    let image = rounds_image(alloc)?;
    Ok(certify(kind, &image))
}

#[test]
fn the_image_is_of_its_kind_alone(rt: HostRuntime) {
    for kind in Kind::ALL {
        assert!(rt; is_of_kind(rt.alloc(), kind) == Ok(kind == Kind::Rounds));
    }
}

// A run, and what each hart comes to: whether it has exited, its value and its flag.
struct Worked {
    name: &'static str,
    inputs: &'static [u32],
    strict: u32,
    alone: [(u32, u32); 2],
    harts: &'static [(bool, u32, u32)],
}

const ONES: u32 = 0xffff_ffff;

// The ends are those that another simulator printed of the same words; a hart that has not exited
// stands at its last instruction.
#[rattlefmt::skip]
static WORKED: [Worked; 9] = [
    Worked { name: "one hart", inputs: &[5], strict: 0, alone: [(0, 34), (0, 0)], harts: &[(true, 5, 1)] },
    Worked { name: "one hart, a step less", inputs: &[5], strict: 0, alone: [(0, 33), (0, 0)], harts: &[(false, 5, 1)] },
    Worked { name: "hart 0 alone", inputs: &[0, ONES], strict: 0, alone: [(0, 42), (1, 87)], harts: &[(true, 0, 1), (true, 0, 1)] },
    Worked { name: "hart 1 a step less", inputs: &[0, ONES], strict: 0, alone: [(0, 42), (1, 86)], harts: &[(true, 0, 1), (false, 0, 1)] },
    Worked { name: "hart 1 alone", inputs: &[0, ONES], strict: 0, alone: [(1, 42), (0, 87)], harts: &[(true, ONES, 1), (true, ONES, 1)] },
    Worked { name: "strict turns", inputs: &[0, ONES], strict: 190, alone: [(0, 0), (1, 0)], harts: &[(true, 0, 0), (true, ONES, 0)] },
    Worked { name: "strict turns, a step less", inputs: &[0, ONES], strict: 189, alone: [(0, 0), (1, 0)], harts: &[(false, 0, 0), (false, ONES, 0)] },
    Worked { name: "apart for three rounds", inputs: &[0, ONES], strict: 140, alone: [(0, 40), (1, 49)], harts: &[(true, 0, 1), (true, 0, 0)] },
    Worked { name: "apart for three rounds, a step less", inputs: &[0, ONES], strict: 140, alone: [(0, 40), (1, 48)], harts: &[(true, 0, 1), (false, 0, 0)] },
];

// Two harts take turns so many times.
fn take_turns(machine: &mut PlainMachine, times: u32) -> Result<(), AllocError> {
    for _ in 0..times {
        take_step(machine, 0)?;
        take_step(machine, 1)?;
    }
    Ok(())
}

// Two harts take turns so many times, and then each runs alone as often as is said.
fn run(machine: &mut PlainMachine, row: &Worked) -> Result<(), AllocError> {
    let [(first, often), (second, seldom)] = row.alone;
    take_turns(machine, row.strict)?;
    take_steps(machine, first, often)?;
    take_steps(machine, second, seldom)
}

// Whether a hart has come to what a row says.
fn is_end(hart: &Hart, exited: bool, value: u32, flag: u32) -> bool {
    let state = if exited {
        HartState::Exited(value)
    } else {
        HartState::Running
    };
    hart.state == state && hart.registers[10] == value && hart.registers[11] == flag
}

// Whether all harts have.
fn are_ends(harts: &[Hart], row: &Worked) -> bool {
    for (hart, (exited, value, flag)) in harts.iter().zip(row.harts) {
        if !is_end(hart, *exited, *value, *flag) {
            return false;
        }
    }
    harts.len() == row.harts.len()
}

fn ends_as_worked(alloc: Global, row: &Worked) -> Result<bool, AllocError> {
    let image = rounds_image(alloc)?;
    let mut machine = started(alloc, &image, row.inputs)?;
    run(&mut machine, row)?;
    Ok(are_ends(machine.ends(), row))
}

#[test]
fn rounds_end_as_worked(rt: HostRuntime) {
    for row in &WORKED {
        assert!(rt; ends_as_worked(rt.alloc(), row) == Ok(true), "{}", row.name);
    }
}
