//! The choice of the next hart.

/// One event of a schedule: a hart takes a step; if it is a store-conditional, it may be refused.
#[derive(Clone, Copy, PartialEq, Eq)]
pub struct Choice {
    /// The hart's number, from 0.
    pub hart: u32,
    /// Whether a store-conditional of this step fails. No effect on any other instruction.
    pub refuse: bool,
}
