//! Exhausted stamps, which no run of threads reaches: a bank's word was accessed with a late stamp
//! before a hart begins.
use crate::programs::STORES;
use bank_laws::{LoggedAccess, LoggedKind};
use bank_worker::{Job, StepFault, work};
use std::alloc::{AllocError, Allocator};
use std::collections::BTreeSet;
use std::sync::Wait;
use test_images::program_image;
use thread_gate::OpenGate;

// A load of the word at 0.
fn load_at(stamp: u64) -> LoggedAccess {
    LoggedAccess {
        stamp,
        hart: 0,
        kind: LoggedKind::Load,
        word: 0,
        before: [0; 4],
        after: [0; 4],
        mark: false,
    }
}

// Why a hart of stores ends early, if its word was accessed with this stamp before it begins.
fn fault_behind<A: Allocator + Copy, R: Wait>(
    rt: &R,
    alloc: A,
    stamp: u64,
    budget: u32,
) -> Result<Option<StepFault>, AllocError> {
    let image = program_image(alloc, STORES)?;
    let plan = BTreeSet::new(alloc);
    let inputs = [7];
    let job = Job::new(alloc, &image, &inputs, budget, &plan)?;
    if job.banks()[0].lock(rt).add(load_at(stamp)).is_err() {
        return Err(AllocError);
    }
    Ok(work(rt, alloc, &job, &OpenGate, 0).err())
}

// The stamp of the access before, the hart's budget, and why it ends early. The last stamp is
// `u64::MAX - 1`.
const ROWS: [(u64, u32, Option<StepFault>); 5] = [
    (0, 2, None),
    (u64::MAX - 3, 2, None),
    (u64::MAX - 2, 1, None),
    (u64::MAX - 2, 2, Some(StepFault::StampsExhausted)),
    (u64::MAX - 1, 1, Some(StepFault::StampsExhausted)),
];

#[test]
fn stamps_are_used_up(rt: HostRuntime) {
    for (stamp, budget, wanted) in &ROWS {
        assert!(rt;
            fault_behind(&rt, rt.alloc(), *stamp, *budget) == Ok(*wanted),
            "{stamp}"
        );
    }
}
