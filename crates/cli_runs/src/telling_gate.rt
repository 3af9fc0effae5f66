//! Shows a person the number of entries in the history of a run on threads.

use cli_report::{Audience, WIPE, wipe_line};
use std::sync::atomic::{AtomicU64, Ordering};
use thread_gate::Gate;

// The number is shown each time this many entries were added.
const TOLD_EACH: u64 = 65536;

/// Lets each hart go on at once, and shows a person the number of entries in the history.
#[derive(Drop)]
pub(crate) struct TellingGate<'a, R> {
    rt: &'a R,
    audience: Audience,
    entries: AtomicU64,
}

impl<'a, R> TellingGate<'a, R> {
    /// A gate that no hart has passed.
    pub(crate) fn new(rt: &'a R, audience: Audience) -> TellingGate<'a, R> {
        TellingGate {
            rt,
            audience,
            entries: AtomicU64::new(0),
        }
    }
}

impl<'a, R: Eprint> TellingGate<'a, R> {
    /// Wipes the shown number, once no hart passes any more.
    pub(crate) fn wipe(&self) {
        if self.entries.load(Ordering::SeqCst) > TOLD_EACH {
            wipe_line(self.rt, self.audience);
        }
    }
}

impl<'a, R: Eprint> Gate for TellingGate<'a, R> {
    fn arrive(&self, _hart: u32, _count: u32) {
        if !self.audience.sees_progress() {
            return;
        }
        let entries = self.entries.fetch_add(1, Ordering::SeqCst);
        if entries > 0 && entries % TOLD_EACH == 0 {
            // If standard error is closed, nobody sees it.
            let _ = eprint!(self.rt; "{WIPE}{entries} entries");
        }
    }
}
