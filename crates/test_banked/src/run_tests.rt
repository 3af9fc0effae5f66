//! Runs over banks that are merged and replayed, and harts that meet.
use crate::checked::checked;
use crate::merging::Lack;
use crate::programs::RESERVE_AND_STORE;
use object_library::Kind;
use std::alloc::Allocator;
use std::sync::Wait;
use std::thread::Threads;
use test_images::{Meeting, Place, Program, STORE_OVER_NEXT, one_value};
use thread_gate::OpenGate;

const LR_SC: Program = Program::Object(Kind::LrSc);

const SWAP: Program = Program::Object(Kind::Swap);

// A program, its inputs, the budget, the plan, and the possible exit statuses, if harts exit.
#[rattlefmt::skip]
const ROWS: [(Program, &[u32], u32, &[(u32, u32)], &[Option<u32>]); 8] = [
    (STORE_OVER_NEXT, &[7, 9], 7, &[], &[Some(5)]),
    (STORE_OVER_NEXT, &[7, 9, 11], 6, &[], &[None]),
    (LR_SC, &[3, 5, 7, 9], 100, &[], &[Some(3), Some(5), Some(7), Some(9)]),
    (LR_SC, &[3, 5], 100, &[(0, 7), (1, 7), (1, 8), (2, 3)], &[Some(3), Some(5)]),
    (SWAP, &[7, 9], 18, &[], &[Some(7), Some(9)]),
    (SWAP, &[7, 9], 0, &[], &[None]),
    (RESERVE_AND_STORE, &[7, 9], 1, &[], &[None]),
    (RESERVE_AND_STORE, &[7, 9, 11], 2, &[], &[None]),
];

// The exit status of all harts of a run, if it is the same.
fn value_of<A: Allocator + Copy + Send + Sync, R: Threads + Wait + Sync>(
    rt: &R,
    alloc: A,
    program: Program,
    inputs: &[u32],
    budget: u32,
    pairs: &[(u32, u32)],
) -> Result<Option<u32>, Lack> {
    let done = checked(rt, alloc, program, inputs, budget, pairs, &OpenGate)?;
    Ok(one_value(&done.harts))
}

// Whether a value is one of those expected.
fn is_wanted(found: Result<Option<u32>, Lack>, values: &[Option<u32>]) -> bool {
    match found {
        Ok(value) => values.contains(&value),
        Err(_) => false,
    }
}

#[test]
fn many_harts_are_one_run(rt: HostRuntime) {
    for (program, inputs, budget, pairs, values) in &ROWS {
        for _ in 0..20 {
            let found = value_of(&rt, rt.alloc(), *program, inputs, *budget, pairs);
            assert!(rt; is_wanted(found, values), "{budget}");
        }
    }
}

// Number of harts of Swap that meet at a place, in a run that is merged and ends as its logs.
fn count_met<A: Allocator + Copy + Send + Sync, R: Threads + Wait + Sync>(
    rt: &R,
    alloc: A,
    place: Place,
) -> Result<u64, Lack> {
    let gate = Meeting::new(place);
    checked(rt, alloc, SWAP, &[7, 9], 100, &[], &gate)?;
    Ok(gate.met())
}

#[test]
fn two_harts_meet(rt: HostRuntime) {
    assert!(rt; count_met(&rt, rt.alloc(), Place::Segment) == Ok(2));
}

// Each hart holds the lock of its bank until the other one holds its own: with one lock for all
// banks they would not meet.
#[test]
fn two_banks_meet(rt: HostRuntime) {
    assert!(rt; count_met(&rt, rt.alloc(), Place::Bank) == Ok(2));
}
