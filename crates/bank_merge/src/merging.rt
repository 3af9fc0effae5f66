//! Logs merged.
ghost use Rattle.std.specs.Prelude.{◌≡◌, ◌↔◌, ℕ, true, IfOk, IfErr};
ghost use Rattle.std.specs.List.{AllByRecursion};
ghost use Rattle.bank_laws.specs.Order.{Rises, Earlier};
ghost use Rattle.bank_laws.specs.Segments.{LoggedSegment};
ghost use Rattle.bank_order.specs.Logs.{segment_logs};
ghost use Rattle.bank_order.specs.Merged.{IsMergeOf, LeadsToLogged};
ghost use Rattle.bank_merge.specs.Logs.{hart_log, segments_of_all, AreOfOne, StampsRise};
ghost use Rattle.bank_merge.specs.Merge.{AreMatched, EndsAsLogged, OwnAreLogged, RefusesLogs};

use crate::matching::is_matched;
use crate::seen::{see_banks, see_harts};
use bank_hart_log::HartLog;
use bank_memory::Bank;
use bank_order::{LogSegment, choices_in_order, is_rising};
use machine::Choice;
use std::alloc::{AllocError, Allocator};

/// Why logs are not merged.
#[derive(Clone, Copy, Drop, PartialEq, Eq)]
pub enum MergeFault {
    /// An access is in a hart's log but not in its bank's, or the other way round.
    Unmatched,
    /// The stamps of a hart's log don't rise.
    OutOfOrder,
    /// The host refused memory.
    Memory,
}

/// The run that the logs of all harts and of all banks of a program are: the choices of all
/// segments, by stamp, then by hart number. Each hart and each of the sixteen banks is there once
/// and in order.
pub fn merge<A: Allocator + Copy>(
    alloc: A,
    logs: &[HartLog<A>],
    banks: &[Bank<A>],
) -> Result<Vec<Choice, A>, MergeFault>
    requires { AreOfOne logs.now banks.now }
    ensures matched { IfOk result (λ _. AreMatched logs.now banks.now) }
    ensures rising { IfOk result (λ _. StampsRise logs.now) }
    ensures merged { IfOk result (λ choices. IsMergeOf (segments_of_all logs.now) choices.items) }
    ensures own { IfOk result (λ choices. OwnAreLogged logs.now choices.items) }
    ensures ends { IfOk result (λ choices. EndsAsLogged logs.now banks.now choices.items) }
    ensures fault { IfErr result (λ fault. RefusesLogs logs.now banks.now fault) }
{
    let Ok(matched) = is_matched(alloc, logs, banks) else {
        return Err(MergeFault::Memory);
    };
    if !matched {
        return Err(MergeFault::Unmatched);
    }
    if !stamps_rise(logs) {
        return Err(MergeFault::OutOfOrder);
    }
    match merge_matched(alloc, logs, banks) {
        Ok(choices) => Ok(choices),
        Err(AllocError) => Err(MergeFault::Memory),
    }
}

/// The run of logs that are known to match and to rise, such as those of a run of threads. Nothing
/// is checked again.
pub fn merge_matched<A: Allocator + Copy>(
    alloc: A,
    logs: &[HartLog<A>],
    banks: &[Bank<A>],
) -> Result<Vec<Choice, A>, AllocError>
    requires one { AreOfOne logs.now banks.now }
    requires matched { AreMatched logs.now banks.now }
    requires rising { StampsRise logs.now }
    ensures merged { IfOk result (λ choices. IsMergeOf (segments_of_all logs.now) choices.items) }
    ensures own { IfOk result (λ choices. OwnAreLogged logs.now choices.items) }
    ensures ends { IfOk result (λ choices. EndsAsLogged logs.now banks.now choices.items) }
{
    see_harts(logs);
    see_banks(banks);
    let choices = choices_of(alloc, logs)?;
    Ok(choices)
}

fn stamps_rise<A: Allocator>(logs: &[HartLog<A>]) -> bool
    ensures { (result ≡ true) ↔ StampsRise logs.now }
{
    'logs: for log in logs {
        if !is_rising(log.segments()) {
            return false;
        }
    }
    true
}

// The choices of all segments, in the order of their stamps.
fn choices_of<A: Allocator + Copy>(
    alloc: A,
    logs: &[HartLog<A>],
) -> Result<Vec<Choice, A>, AllocError>
    requires own { (h : ℕ) → AllByRecursion (λ e. e.hart ≡ h) (hart_log logs.now h) }
    requires rising { StampsRise logs.now }
    ensures merged { IfOk result (λ choices. IsMergeOf (segments_of_all logs.now) choices.items) }
    ensures leads { IfOk result (λ choices. LeadsToLogged (segments_of_all logs.now) choices.items) }
{
    let all = segments_of_all(alloc, logs)?;
    let choices = choices_in_order(alloc, &all)?;
    Ok(choices)
}

// The segments of each log.
fn segments_of_all<'l, 'a, A: Allocator + Copy>(
    alloc: A,
    logs: &'l [HartLog<'a, A>],
) -> Result<Vec<&'l [LogSegment], A>, AllocError>
    ensures { IfOk result (λ all. segment_logs all.items ≡ segments_of_all logs.now) }
{
    let mut all = Vec::new(alloc);
    'logs: for log in logs {
        all.push(log.segments())?;
    }
    Ok(all)
}
