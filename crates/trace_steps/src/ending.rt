//! The step that ended each hart's last reservation.

use crate::held::Held;
use hart_reservations::MAX_HARTS;

/// The step that ended a reservation.
#[derive(Clone, Copy, PartialEq, Eq)]
pub struct Ending {
    /// The hart that took it.
    pub hart: u32,
    /// The number of its choice.
    pub choice: u64,
}

/// The step that ended each hart's last reservation, if one has. It takes no memory of the host.
#[derive(Clone, Copy, Drop)]
pub struct Endings {
    last: [Option<Ending>; MAX_HARTS],
}

impl Endings {
    ghost use Rattle.std.specs.Prelude.{◌≡◌, ◌<◌, ◌≤◌, ℕ, None};
    ghost use Rattle.hart_reservations.specs.Limit.{most_harts};
    ghost use Rattle.hart_reservations.specs.Reserve.{marks};
    ghost use Rattle.trace_steps.specs.Ends.{kept_ends, ends_after};

    /// As no reservation has ended.
    pub fn new() -> Self
        ensures { kept_ends result ≡ (λ _. None) }
    {
        Endings {
            last: [None; MAX_HARTS],
        }
    }

    /// The step that ended a hart's last reservation.
    pub(crate) fn of(&self, hart: usize) -> Option<Ending>
        requires { hart < most_harts }
        ensures { result ≡ kept_ends self.now hart }
    {
        self.last[hart]
    }

    /// Takes in which reservations of the first `harts` harts a step has ended.
    pub(crate) fn note(&mut self, harts: usize, before: &Held, after: &Held, step: Ending)
        requires { harts ≤ most_harts }
        ensures { kept_ends self.new
            ≡ ends_after harts (marks before.now.reserve) (marks after.now.reserve) step (kept_ends self.old) }
    {
        'harts: for hart in 0..harts {
            if before.word(hart).is_some() && after.word(hart).is_none() {
                self.last[hart] = Some(step);
            }
        }
    }
}
