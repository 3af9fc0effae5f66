//! One entry of a history.

/// Local steps of a hart, then one step that may access shared state.
#[derive(Clone, Copy, PartialEq, Eq)]
pub struct Entry {
    /// The hart's number, from 0.
    pub hart: u32,
    /// Number of local steps before the last step.
    pub local: u32,
    /// Whether a store-conditional of the last step is refused.
    pub refuse: bool,
}
