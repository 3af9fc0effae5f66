//! Whether logs and banks are the whole result of one run.
ghost use Rattle.std.specs.Prelude.{◌≡◌, ℕ, ◌<◌, ◌≤◌, true, IfOk, length, slice_index_or};
ghost use Rattle.std.specs.List.{list_all};
ghost use Rattle.bank_merge.specs.AccessOrder.{bank_logs};
ghost use Rattle.bank_laws.specs.Merged.{most_banks};
ghost use Rattle.bank_hart_log.specs.HartLog.{HartLogValue};
ghost use Rattle.bank_threads.specs.Banked.{IsBanked};
ghost use Rattle.bank_threads.specs.Ordered.{AreOrderedHarts, IsOrderedHart};

use crate::compare::{are_of_banks, is_of_hart};
use bank_hart_log::HartLog;
use bank_memory::Bank;
use bank_merge::{have_no_others, is_ordered};
use image::Image;
use std::alloc::{AllocError, Allocator};
use std::thread;
use std::thread::Threads;
use thread_gate::Plan;

// Whether a log is that of a hart of a run, and the banks' logs have its accesses in its own order.
fn is_ordered_hart<'a, A: Allocator>(
    log: &HartLog<'a, A>,
    banks: &[Bank<'a, A>],
    image: &Image<A>,
    inputs: &[u32],
    plan: &Plan<A>,
    budget: u32,
    hart: u32,
) -> bool
    requires { length banks.now ≡ most_banks }
    ensures { result ≡ true → IsOrderedHart image.now inputs.now budget plan.now.keys (bank_logs banks.now) hart log.now }
{
    is_of_hart(log, image, inputs, plan, budget, hart)
        && is_ordered(hart as usize, log.segments(), banks)
}

fn are_yes(answers: &[bool]) -> bool
    ensures { result ≡ list_all (λ answer. answer) answers.now }
{
    answers.iter().all(|answer| *answer)
}

// Whether logs are those of the harts of a run, each once and in order, and the banks' logs have
// their accesses in their own order. Each is checked in a thread of its own if the host starts one.
fn are_ordered_harts<'a, R: Threads + Sync, A: Allocator + Copy + Send + Sync>(
    rt: &R,
    alloc: A,
    logs: &[HartLog<'a, A>],
    banks: &[Bank<'a, A>],
    image: &Image<A>,
    inputs: &[u32],
    plan: &Plan<A>,
    budget: u32,
) -> Result<bool, AllocError>
    requires few { length inputs.now ≤ 32 }
    requires sixteen { length banks.now ≡ most_banks }
    ensures { IfOk result (λ all. all ≡ true
        → AreOrderedHarts image.now inputs.now budget plan.now.keys (bank_logs banks.now) logs.now) }
{
    if logs.len() != inputs.len() {
        return Ok(false);
    }
    let look = |hart: usize| -> bool
        requires { (hart < length logs.now) × (length logs.now ≤ 32) × (length banks.now ≡ most_banks) }
        ensures { (d : HartLogValue) → result ≡ true → IsOrderedHart image.entry.now inputs.entry.now budget plan.entry.now.keys
            (bank_logs banks.entry.now) hart (slice_index_or logs.entry.now hart d) }
    { is_ordered_hart(&logs[hart], banks, image, inputs, plan, budget, hart as u32) };
    let answers = thread::map_indices(rt, alloc, logs.len(), &look)?;
    Ok(are_yes(&answers))
}

/// Whether logs and banks are the whole result of a run: each hart's and each bank's, once and in
/// order, with the same accesses. It expects them in the same order in both, as threads leave them,
/// and answers no otherwise.
pub fn are_of_a_run<'a, R: Threads + Sync, A: Allocator + Copy + Send + Sync>(
    rt: &R,
    alloc: A,
    logs: &[HartLog<'a, A>],
    banks: &[Bank<'a, A>],
    image: &Image<A>,
    inputs: &[u32],
    plan: &Plan<A>,
    budget: u32,
) -> Result<bool, AllocError>
    requires { length inputs.now ≤ 32 }
    ensures { IfOk result (λ all. all ≡ true
        → IsBanked image.now inputs.now budget plan.now.keys logs.now banks.now) }
{
    if !are_of_banks(banks, image, inputs) {
        return Ok(false);
    }
    // Every image has passed its checks, also that of its entry.
    let _ = image.segments();
    let ordered = are_ordered_harts(rt, alloc, logs, banks, image, inputs, plan, budget)?;
    Ok(ordered && have_no_others(banks, logs.len()))
}
