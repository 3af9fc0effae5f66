//! Harts that spin, whose threads let others run.

use hart_step::Hart;
use std::thread::yield_now;

// After so many looks another state of the hart is kept: a loop with at most as many shared steps
// is noticed.
const LOOKS: u32 = 16;

/// A hart as it was some entries ago. If it comes back to that place with the same registers, it
/// waits for something that hasn't changed.
#[derive(Drop)]
pub struct Spinning {
    seen: Hart,
    looks: u32,
}

impl Spinning {
    /// A hart that is looked at from now on.
    pub fn new(hart: &Hart) -> Spinning {
        Spinning {
            seen: *hart,
            looks: 0,
        }
    }

    /// Looks at the hart after one more entry. If it spins, its thread lets another one run, which
    /// may change what it waits for.
    pub fn look(&mut self, hart: &Hart) {
        if *hart == self.seen {
            yield_now();
        }
        if self.looks < LOOKS {
            self.looks += 1;
        } else {
            self.looks = 0;
            self.seen = *hart;
        }
    }
}
