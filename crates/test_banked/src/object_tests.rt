//! The library's objects on threads over banks, under drawn plans: each run is merged, and ends as
//! its logs, with its rule kept.
use crate::checked::checked;
use crate::merging::Lack;
use hart_step::HartState;
use object_library::{Kind, Verdict, judge};
use std::alloc::Allocator;
use std::sync::Wait;
use std::thread::Threads;
use test_images::{Program, pairs_of};
use thread_gate::OpenGate;

// An object, and its harts' inputs.
const OBJECTS: [(Kind, &[u32]); 5] = [
    (Kind::Swap, &[7, 9]),
    (Kind::Add, &[4, 6]),
    (Kind::LrSc, &[3, 5, 7, 9]),
    (Kind::AdoptCommit, &[2, 2, 5]),
    (Kind::Rounds, &[2, 2, 5]),
];

// Number of runs of each object.
const RUNS: u32 = 1000;

// More choices than a hart of any object needs.
const BUDGET: u32 = 500;

// Runs an object; returns its verdict, if all its harts have stopped.
fn verdict_of<A: Allocator + Copy + Send + Sync, R: Threads + Wait + Sync>(
    rt: &R,
    alloc: A,
    kind: Kind,
    inputs: &[u32],
    number: u32,
) -> Result<Option<Verdict>, Lack> {
    let program = Program::Object(kind);
    let done = checked(
        rt,
        alloc,
        program,
        inputs,
        BUDGET,
        &pairs_of(number, 5),
        &OpenGate,
    )?;
    if done
        .harts
        .iter()
        .any(|hart| hart.state == HartState::Running)
    {
        return Ok(None);
    }
    Ok(Some(judge(kind, inputs, &done.choices, &done.harts)))
}

#[test]
fn objects_keep_their_rule(rt: HostRuntime) {
    for (kind, inputs) in &OBJECTS {
        for number in 0..RUNS {
            let found = verdict_of(&rt, rt.alloc(), *kind, inputs, number);
            assert!(rt; found == Ok(Some(Verdict::Kept)), "run {number}");
        }
    }
}
