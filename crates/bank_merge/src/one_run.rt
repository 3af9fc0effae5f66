//! Laws of matching logs: they are one run, and equal stamps are of different banks.
ghost use Rattle.bank_merge.specs.Logs.{AreOfOne, StampsRise};
ghost use Rattle.bank_merge.specs.Merge.{AreMatched, AreOneRun, ShareNoBank};

use crate::seen::{see_banks, see_harts};
use bank_hart_log::HartLog;
use bank_memory::Bank;
use std::alloc::Allocator;

/// Logs that are known to match and to rise are one run, even if its choices are never made.
pub fn logs_are_one_run<A: Allocator>(logs: &[HartLog<A>], banks: &[Bank<A>])
    requires one { AreOfOne logs.now banks.now }
    requires matched { AreMatched logs.now banks.now }
    requires rising { StampsRise logs.now }
    ensures { AreOneRun logs.now banks.now }
{
    see_harts(logs);
    see_banks(banks);
}

/// In logs that are known to match, two segments of different harts with equal stamps share no
/// bank, so their order is free.
pub fn equal_stamps_are_apart<A: Allocator>(logs: &[HartLog<A>], banks: &[Bank<A>])
    requires one { AreOfOne logs.now banks.now }
    requires matched { AreMatched logs.now banks.now }
    ensures { ShareNoBank logs.now }
{
    see_harts(logs);
    see_banks(banks);
}
