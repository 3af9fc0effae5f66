//! A segment of a hart's log.
use bank_laws::LoggedAccess;
use std::marker::Model;

/// Local steps of a hart, which touch nothing, and then one step with its stamp and its accesses.
#[derive(Drop)]
pub struct LogSegment {
    /// The stamp of the last step.
    pub stamp: u64,
    /// The hart's number, from 0.
    pub hart: u32,
    /// Number of local steps.
    pub local: u32,
    /// Whether a store-conditional of the last step is refused.
    pub refuse: bool,
    /// The fetch of the last step's instruction, if it was read from a bank.
    pub code_read: Option<LoggedAccess>,
    /// The data access of the last step, if it had one.
    pub data_access: Option<LoggedAccess>,
}

impl Model for LogSegment {
    ghost use Rattle.std.specs.Prelude.{◌++◌, option_to_list};
    ghost use Rattle.bank_laws.specs.Segments.{LoggedSegment};

    ghost Value = { LoggedSegment };

    ghost view = { λ s. record {
      stamp = s.stamp;
      hart = s.hart;
      local = s.local;
      refuse = s.refuse;
      accesses = option_to_list s.code_read ++ option_to_list s.data_access;
    } };
}
