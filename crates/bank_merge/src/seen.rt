//! The invariants of all logs of a list.
ghost use Rattle.std.specs.Prelude.{◌≡◌, ℕ, Some, slice_get};
ghost use Rattle.bank_memory.specs.BankLog.{BankLog, IsOfBank};
ghost use Rattle.bank_hart_log.specs.HartLog.{HartLogValue, IsOfHart};

use bank_hart_log::{HartLog, each_hart_log_is_walked};
use bank_memory::{Bank, each_bank_is_logged};
use std::alloc::Allocator;

/// Reads each bank, which gives the proof its invariant.
pub(crate) fn see_banks<A: Allocator>(banks: &[Bank<A>])
    ensures { (b : ℕ) (k : BankLog) → slice_get banks.now b ≡ Some k → IsOfBank k }
{
    'banks: for bank in banks {
        each_bank_is_logged(bank);
    }
}

/// Reads each hart's log, which gives the proof its invariant.
pub(crate) fn see_harts<A: Allocator>(logs: &[HartLog<A>])
    ensures { (h : ℕ) (l : HartLogValue) → slice_get logs.now h ≡ Some l → IsOfHart l }
{
    'logs: for log in logs {
        each_hart_log_is_walked(log);
    }
}
