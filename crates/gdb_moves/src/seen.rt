//! What is seen of a choice.

use crate::stop::StopReason;
use hart_step::Cause;

/// What is seen of a choice: of the world before it, and of its step.
#[derive(Clone, Copy)]
pub struct Seen {
    /// Whether the hart ran before it.
    pub ran: bool,
    /// The breakpoint at which the hart stands before it.
    pub stands: Option<StopReason>,
    /// The watch that its step hits.
    pub touches: Option<StopReason>,
    /// The fault of its step.
    pub fault: Option<Cause>,
    /// The address of the hart's next instruction; `None` if the hart has stopped.
    pub next: Option<u32>,
}
