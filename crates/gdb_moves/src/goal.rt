//! What a move looks for.
ghost use Rattle.std.specs.Prelude.{◌≡◌};
ghost use Rattle.std.specs.Option.{option_or};
ghost use Rattle.gdb_moves.specs.Reasons.{ahead, step_reason, done_reason, steps, reason_for, counted_stop};

use crate::seen::Seen;
use crate::stop::{AddressRange, StopReason, ThreadStop, Whose, counts, is_in_range};

/// What a move looks for.
#[derive(Clone, Copy)]
pub enum Goal {
    /// Forwards: the first hit or fault.
    Ahead,
    /// Forwards: the same, or this hart's step that leaves the range.
    Step {
        /// The hart's number, from 0.
        hart: u32,
        /// The range to leave; an empty one is left by any step.
        range: AddressRange,
    },
    /// Forwards: the same, or any hart's step that leaves the range.
    Any {
        /// The range to leave; an empty one is left by any step.
        range: AddressRange,
    },
    /// Forwards: the same, or this hart's next choice.
    Next {
        /// The hart's number, from 0.
        hart: u32,
    },
    /// Backwards: the last hit.
    Back,
    /// Backwards: the same, or this hart's last step.
    StepBack {
        /// The hart's number, from 0.
        hart: u32,
    },
}

// The reason to stop at a hit or fault on the way forwards.
fn ahead(seen: Seen) -> Option<StopReason>
    ensures { result ≡ ahead seen }
{
    if seen.stands.is_some() {
        return seen.stands;
    }
    if seen.touches.is_some() {
        return seen.touches;
    }
    let cause = seen.fault?;
    Some(StopReason::Fault(cause))
}

// The reason to stop at a thread's step, if it leaves a range or ends the thread.
fn stepped(range: AddressRange, next: Option<u32>) -> Option<StopReason>
    ensures { result ≡ step_reason range next }
{
    let Some(pc) = next else {
        return Some(StopReason::Done);
    };
    if is_in_range(range, pc) {
        None
    } else {
        Some(StopReason::Ready)
    }
}

// The reason to stop behind any hart's step, if it leaves a range or ends the hart.
fn done(range: AddressRange, next: Option<u32>) -> Option<StopReason>
    ensures { result ≡ done_reason range next }
{
    let Some(pc) = next else {
        return Some(StopReason::Done);
    };
    if is_in_range(range, pc) {
        None
    } else {
        Some(StopReason::Done)
    }
}

// Whether a choice of a hart is a step of the wanted one.
fn steps(own: u32, hart: u32, seen: Seen) -> bool
    ensures { result ≡ steps own hart seen }
{
    own == hart && seen.ran
}

// The first of two reasons.
fn either(first: Option<StopReason>, second: Option<StopReason>) -> Option<StopReason>
    ensures { result ≡ option_or first second }
{
    match first {
        Some(reason) => Some(reason),
        None => second,
    }
}

impl Goal {
    /// The reason to stop at a choice of a hart.
    pub(crate) fn reason(self, hart: u32, seen: Seen) -> Option<StopReason>
        ensures { result ≡ reason_for self hart seen }
    {
        match self {
            Goal::Ahead => ahead(seen),
            Goal::Step { hart: own, range } => {
                let step = if steps(own, hart, seen) {
                    stepped(range, seen.next)
                } else {
                    None
                };
                either(ahead(seen), step)
            }
            Goal::Any { range } => {
                let step = if seen.ran {
                    done(range, seen.next)
                } else {
                    None
                };
                either(ahead(seen), step)
            }
            Goal::Next { hart: own } => {
                if own == hart {
                    Some(StopReason::Ready)
                } else {
                    ahead(seen)
                }
            }
            Goal::Back => either(seen.touches, seen.stands),
            Goal::StepBack { hart: own } => {
                let step = if steps(own, hart, seen) {
                    Some(StopReason::Ready)
                } else {
                    None
                };
                either(either(seen.touches, seen.stands), step)
            }
        }
    }
}

/// A stop of a hart, if it has a reason and counts.
pub fn told(whose: Whose, hart: u32, reason: Option<StopReason>) -> Option<ThreadStop>
    ensures { result ≡ counted_stop whose hart reason }
{
    let reason = reason?;
    if counts(whose, hart) {
        Some(ThreadStop { hart, reason })
    } else {
        None
    }
}
