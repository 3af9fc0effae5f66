//! What a session moves by.

use gdb_moves::{AddressRange, Whose};

/// A move through the run.
#[derive(Clone, Copy)]
pub enum Move {
    /// Forwards to the first hit or fault of these harts.
    Ahead(Whose),
    /// Back to the last hit of these harts.
    Back(Whose),
    /// A hart's step that leaves the range, and on to just before its next choice.
    Step {
        /// The hart's number, from 0.
        hart: u32,
        /// The range to leave; an empty one is left by any step.
        range: AddressRange,
    },
    /// A step of any hart, whichever comes next, that leaves the range.
    StepAny {
        /// The range to leave; an empty one is left by any step.
        range: AddressRange,
    },
    /// A hart's step that leaves the range, alone: only its own hits and faults count.
    StepAlone {
        /// The hart's number, from 0.
        hart: u32,
        /// The range to leave; an empty one is left by any step.
        range: AddressRange,
    },
    /// Back to just before a hart's last step, or to a hit of these harts on the way.
    StepBack {
        /// The hart's number, from 0.
        hart: u32,
        /// The harts whose hits count.
        whose: Whose,
    },
}
