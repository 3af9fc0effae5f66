//! Whether harts' logs and banks' logs have their accesses in the same order.
ghost use Rattle.std.specs.Prelude.{◌≡◌, ◌↔◌, ◌<◌, true, length};
ghost use Rattle.std.specs.List.{AllByRecursion};
ghost use Rattle.bank_laws.specs.Segments.{accesses};
ghost use Rattle.bank_laws.specs.Merged.{most_banks};
ghost use Rattle.bank_merge.specs.AccessOrder.{bank_logs, hart_segments, AreOrdered, HaveNoOthers, IsOrdered};

use crate::places::{are_passed, pass_all};
use bank_hart_log::HartLog;
use bank_laws::LoggedAccess;
use bank_memory::{BANKS, Bank};
use bank_order::LogSegment;
use std::alloc::Allocator;

/// Whether the banks' logs have a hart's accesses in the order of its own log. Allocates nothing.
pub fn is_ordered<A: Allocator>(hart: usize, segments: &[LogSegment], banks: &[Bank<A>]) -> bool
    requires { length banks.now ≡ most_banks }
    ensures { (result ≡ true) ↔ IsOrdered (bank_logs banks.now) hart (accesses segments.now) }
{
    let mut places = [0; 16];
    pass_all(&mut places, banks, hart, segments) && are_passed(&places, banks, hart)
}

// Whether all accesses are of harts below a number.
fn are_below(log: &[LoggedAccess], harts: usize) -> bool
    ensures { (result ≡ true) ↔ AllByRecursion (λ a. a.hart < harts) log.now }
{
    'accesses: for access in log {
        if access.hart as usize >= harts {
            return false;
        }
    }
    true
}

/// Whether all accesses in the banks are of harts below a number. Allocates nothing.
pub fn have_no_others<A: Allocator>(banks: &[Bank<A>], harts: usize) -> bool
    requires { length banks.now ≡ most_banks }
    ensures { (result ≡ true) ↔ HaveNoOthers (bank_logs banks.now) harts }
{
    'banks: for bank in 0..BANKS as usize {
        if !are_below(banks[bank].log(), harts) {
            return false;
        }
    }
    true
}

/// Whether the banks' logs have the accesses of each hart in the order of its own log, and no
/// others. Allocates nothing.
pub fn are_ordered<A: Allocator>(logs: &[HartLog<A>], banks: &[Bank<A>]) -> bool
    requires { length banks.now ≡ most_banks }
    ensures { (result ≡ true) ↔ AreOrdered (hart_segments logs.now) (bank_logs banks.now) }
{
    'logs: for hart in 0..logs.len() {
        if !is_ordered(hart, logs[hart].segments(), banks) {
            return false;
        }
    }
    have_no_others(banks, logs.len())
}
