//! Whether the logs of harts and of banks have the same accesses.
ghost use Rattle.std.specs.Prelude.{◌≡◌, ◌||◌, ◌↔◌, [], ◌∷◌, ◌++◌, option_to_list, length, IfOk, OnOk, true};
ghost use Rattle.bank_laws.specs.declared.access.LoggedAccess.{LoggedAccess};
ghost use Rattle.bank_laws.specs.Order.{IsMatched};
ghost use Rattle.bank_laws.specs.Segments.{accesses};
ghost use Rattle.bank_merge.specs.AccessOrder.{bank_logs, hart_segments, AreOrdered};
ghost use Rattle.bank_laws.specs.Merged.{bank_of, most_banks};
ghost use Rattle.bank_merge.specs.Logs.{bank_log, hart_log, AreNumbered};
ghost use Rattle.bank_merge.specs.Matching.{are_in, bank_accesses, hart_accesses, is_among, has_access, HasAllOf};

use crate::are_ordered;
use crate::seen::see_banks;
use bank_hart_log::HartLog;
use bank_laws::LoggedAccess;
use bank_memory::{BANKS, Bank};
use bank_order::LogSegment;
use std::alloc::{AllocError, Allocator};
use std::collections::BTreeSet;

// Appends accesses to a list.
fn push_all<A: Allocator>(
    list: &mut Vec<LoggedAccess, A>,
    accesses: &[LoggedAccess],
) -> Result<(), AllocError>
    ensures { OnOk result (list.new.items ≡ list.old.items ++ accesses.now) }
{
    'accesses: for access in accesses {
        list.push(*access)?;
    }
    Ok(())
}

// Appends an access to a list, if there is one.
fn push_if<A: Allocator>(
    list: &mut Vec<LoggedAccess, A>,
    access: Option<LoggedAccess>,
) -> Result<(), AllocError>
    ensures { OnOk result (list.new.items ≡ list.old.items ++ option_to_list access) }
{
    if let Some(access) = access {
        list.push(access)?;
    }
    Ok(())
}

// Appends the accesses of a segment to a list.
fn push_segment<A: Allocator>(
    list: &mut Vec<LoggedAccess, A>,
    segment: &LogSegment,
) -> Result<(), AllocError>
    ensures { OnOk result (list.new.items ≡ list.old.items ++ segment.now.accesses) }
{
    push_if(list, segment.code_read)?;
    push_if(list, segment.data_access)?;
    Ok(())
}

// Appends the accesses of segments to a list.
fn push_segments<A: Allocator>(
    list: &mut Vec<LoggedAccess, A>,
    segments: &[LogSegment],
) -> Result<(), AllocError>
    ensures { OnOk result (list.new.items ≡ list.old.items ++ accesses segments.now) }
{
    'segments: for segment in segments {
        push_segment(list, segment)?;
    }
    Ok(())
}

// The accesses in the logs of harts.
fn of_harts<A: Allocator + Copy>(
    alloc: A,
    logs: &[HartLog<A>],
) -> Result<Vec<LoggedAccess, A>, AllocError>
    ensures { IfOk result (λ list. list.items ≡ hart_accesses logs.now) }
{
    let mut list = Vec::new(alloc);
    'logs: for log in logs {
        push_segments(&mut list, log.segments())?;
    }
    Ok(list)
}

// The accesses in the logs of banks.
fn of_banks<A: Allocator + Copy>(
    alloc: A,
    banks: &[Bank<A>],
) -> Result<Vec<LoggedAccess, A>, AllocError>
    ensures { IfOk result (λ list. list.items ≡ bank_accesses banks.now) }
{
    let mut list = Vec::new(alloc);
    'banks: for bank in banks {
        push_all(&mut list, bank.log())?;
    }
    Ok(list)
}

// Adds an access to a set.
fn insert<A: Allocator + Clone>(
    set: &mut BTreeSet<LoggedAccess, A>,
    access: &LoggedAccess,
) -> Result<(), AllocError>
    ensures { OnOk result ((a : LoggedAccess) → has_access set.new a ≡ (is_among (access.now ∷ []) a || has_access set.old a)) }
{
    let Ok(_) = set.insert(*access) else {
        return Err(AllocError);
    };
    Ok(())
}

// The set of accesses.
fn set_of<A: Allocator + Copy>(
    alloc: A,
    accesses: &[LoggedAccess],
) -> Result<BTreeSet<LoggedAccess, A>, AllocError>
    ensures { IfOk result (λ set. (a : LoggedAccess) → has_access set a ≡ is_among accesses.now a) }
{
    let mut set = BTreeSet::new(alloc);
    'accesses: for access in accesses {
        insert(&mut set, access)?;
    }
    Ok(set)
}

fn is_in<A: Allocator>(set: &BTreeSet<LoggedAccess, A>, access: &LoggedAccess) -> bool
    ensures { result ≡ are_in set.now (access.now ∷ []) }
{
    set.contains(access)
}

fn are_in<A: Allocator>(set: &BTreeSet<LoggedAccess, A>, accesses: &[LoggedAccess]) -> bool
    ensures { result ≡ are_in set.now accesses.now }
{
    'accesses: for access in accesses {
        if !is_in(set, access) {
            return false;
        }
    }
    true
}

// Whether all accesses are among the others.
fn are_among<A: Allocator + Copy>(
    alloc: A,
    accesses: &[LoggedAccess],
    others: &[LoggedAccess],
) -> Result<bool, AllocError>
    ensures { IfOk result (λ all. (all ≡ true) ↔ HasAllOf accesses.now others.now) }
{
    let set = set_of(alloc, others)?;
    Ok(are_in(&set, accesses))
}

// Whether all banks are there, with the accesses of each hart in the order of its own log. Logs of
// threads are like this, and checking it allocates nothing.
fn are_in_order<A: Allocator>(logs: &[HartLog<A>], banks: &[Bank<A>]) -> bool
    ensures { result ≡ true
        → (length banks.now ≡ most_banks) × AreOrdered (hart_segments logs.now) (bank_logs banks.now) }
{
    banks.len() == BANKS as usize && are_ordered(logs, banks)
}

/// Whether a hart's log has an access exactly if the log of its word's bank has it. Bank b is at
/// index b.
pub fn is_matched<A: Allocator + Copy>(
    alloc: A,
    logs: &[HartLog<A>],
    banks: &[Bank<A>],
) -> Result<bool, AllocError>
    requires { AreNumbered banks.now }
    ensures { IfOk result (λ matched. (matched ≡ true) ↔ IsMatched bank_of (hart_log logs.now) (bank_log banks.now)) }
{
    if are_in_order(logs, banks) {
        return Ok(true);
    }
    see_banks(banks);
    let of_harts = of_harts(alloc, logs)?;
    let of_banks = of_banks(alloc, banks)?;
    let in_banks = are_among(alloc, &of_harts, &of_banks)?;
    if !in_banks {
        return Ok(false);
    }
    let in_harts = are_among(alloc, &of_banks, &of_harts)?;
    Ok(in_harts)
}
