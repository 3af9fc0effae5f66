//! Whether logs are those of one run.
ghost use Rattle.std.specs.Prelude.{◌≡◌, ℕ, ◌≤◌, Some, true, IfOk, IfSome, length, slice_get};
ghost use Rattle.bank_memory.specs.BankLog.{BankLog};
ghost use Rattle.bank_laws.specs.Merged.{most_banks};
ghost use Rattle.bank_hart_log.specs.HartLog.{HartLogValue};
ghost use Rattle.bank_merge.specs.Logs.{IsBankOf};
ghost use Rattle.bank_order.specs.Merged.{choices_in};
ghost use Rattle.bank_worker.specs.Worked.{LogHasEnded, LogIsFlagged};
ghost use Rattle.bank_threads.specs.Banked.{IsHartOfRun};

use bank_hart_log::HartLog;
use bank_memory::{BANKS, Bank};
use bank_order::{LogSegment, is_rising};
use image::{Image, Segment};
use std::alloc::Allocator;
use thread_gate::{Plan, is_planned, is_stopped};

// Whether two segments are the same.
fn same_segment<A: Allocator>(first: &Segment<A>, second: &Segment<A>) -> bool
    ensures { result ≡ true → first.now ≡ second.now }
{
    first.base == second.base
        && first.size == second.size
        && first.rights == second.rights
        && first.bytes[..] == second.bytes[..]
}

// Whether two lists of segments are the same.
fn same_segments<A: Allocator>(first: &[Segment<A>], second: &[Segment<A>]) -> bool
    ensures { result ≡ true → first.now ≡ second.now }
{
    if first.len() != second.len() {
        return false;
    }
    'segments: for i in 0..first.len() {
        if !same_segment(&first[i], &second[i]) {
            return false;
        }
    }
    true
}

// Whether two images are the same.
fn same_image<A: Allocator>(first: &Image<A>, second: &Image<A>) -> bool
    ensures { result ≡ true → first.now ≡ second.now }
{
    first.entry() == second.entry() && same_segments(first.segments(), second.segments())
}

// The number of choices that segments stand for, if it is at most `budget` and each segment's
// refusal is the plan's.
fn planned_choices<A: Allocator>(
    segments: &[LogSegment],
    plan: &Plan<A>,
    hart: u32,
    budget: u32,
) -> Option<u32>
    ensures { IfSome result (λ made. LogIsFlagged plan.now.keys hart 0 segments.now
        × (made ≡ choices_in segments.now) × (made ≤ budget)) }
{
    let mut made = 0;
    'segments: for segment in segments {
        let local = segment.local;
        if local >= budget - made {
            return None;
        }
        if segment.refuse != is_planned(plan, hart, made + local) {
            return None;
        }
        made += local + 1;
    }
    Some(made)
}

/// Whether a hart has stopped after at most `budget` choices or has made exactly that many, and its
/// segments are refused as in the plan.
pub fn has_ended<A: Allocator>(log: &HartLog<A>, plan: &Plan<A>, hart: u32, budget: u32) -> bool
    ensures { result ≡ true → LogHasEnded budget log.now × LogIsFlagged plan.now.keys hart 0 log.now.log }
{
    match planned_choices(log.segments(), plan, hart, budget) {
        Some(made) => is_stopped(log.slot()) || made == budget,
        None => false,
    }
}

/// Whether a log is that of a hart of a run.
pub fn is_of_hart<A: Allocator>(
    log: &HartLog<A>,
    image: &Image<A>,
    inputs: &[u32],
    plan: &Plan<A>,
    budget: u32,
    hart: u32,
) -> bool
    ensures { result ≡ true → IsHartOfRun image.now inputs.now budget plan.now.keys hart log.now }
{
    same_image(log.image(), image)
        && *log.inputs() == *inputs
        && log.number() == hart
        && has_ended(log, plan, hart, budget)
        && is_rising(log.segments())
}

/// Whether a bank is one of a run's.
pub fn is_of_bank<A: Allocator>(
    bank: &Bank<A>,
    image: &Image<A>,
    inputs: &[u32],
    number: u32,
) -> bool
    ensures { result ≡ true → IsBankOf image.now inputs.now number bank.now }
{
    same_image(bank.image(), image) && *bank.inputs() == *inputs && bank.number() == number
}

/// Whether logs are those of the harts of a run, each once and in order.
pub fn are_of_harts<'a, A: Allocator>(
    logs: &[HartLog<'a, A>],
    image: &Image<A>,
    inputs: &[u32],
    plan: &Plan<A>,
    budget: u32,
) -> bool
    requires { length inputs.now ≤ 32 }
    ensures { result ≡ true → (length logs.now ≡ length inputs.now)
        × ((h : ℕ) (l : HartLogValue) → slice_get logs.now h ≡ Some l
        → IsHartOfRun image.now inputs.now budget plan.now.keys h l) }
{
    if logs.len() != inputs.len() {
        return false;
    }
    'logs: for h in 0..logs.len() {
        if !is_of_hart(&logs[h], image, inputs, plan, budget, h as u32) {
            return false;
        }
    }
    true
}

/// Whether banks are all of a run's banks, each once and in order.
pub fn are_of_banks<'a, A: Allocator>(
    banks: &[Bank<'a, A>],
    image: &Image<A>,
    inputs: &[u32],
) -> bool
    ensures { result ≡ true → (length banks.now ≡ most_banks)
        × ((b : ℕ) (k : BankLog) → slice_get banks.now b ≡ Some k → IsBankOf image.now inputs.now b k) }
{
    if banks.len() != BANKS as usize {
        return false;
    }
    'banks: for b in 0..banks.len() {
        if !is_of_bank(&banks[b], image, inputs, b as u32) {
            return false;
        }
    }
    true
}
