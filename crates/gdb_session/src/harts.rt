//! The harts of GDB's threads.
ghost use Rattle.std.specs.Prelude.{◌≡◌};
ghost use Rattle.gdb_session.specs.Talk.{hart_count, talk_of};
ghost use Rattle.gdb_session.specs.Harts.{hart_of_thread, hart_read, selected_harts, stopped_hart};

use crate::selected::Selected;
use crate::talk::Talk;
use gdb_replies::Stop;
use gdb_requests::Threads;
use std::alloc::Allocator;

/// The hart of the last stop; the first one before any.
pub fn stopped_hart(stop: &Option<Stop>) -> u32
    ensures { result ≡ stopped_hart stop.now }
{
    match stop {
        Some(stop) => stop.hart,
        None => 0,
    }
}

impl<A: Allocator + Copy> Talk<A> {
    /// The hart that is read.
    pub(crate) fn hart_read(&self) -> u32
        ensures { result ≡ hart_read (talk_of self.now) }
    {
        match self.reads {
            Selected::One(hart) => hart,
            _ => stopped_hart(&self.stop),
        }
    }

    /// The hart of a thread, if it is there.
    pub(crate) fn hart_of_thread(&self, thread: u32) -> Option<u32>
        ensures { result ≡ hart_of_thread (hart_count (talk_of self.now)) thread }
    {
        let hart = thread.checked_sub(1)?;
        if (hart as usize) < self.debugger.machine().harts() {
            Some(hart)
        } else {
            None
        }
    }

    /// The harts of threads, if they are there.
    pub(crate) fn select(&self, threads: Threads) -> Option<Selected>
        ensures { result ≡ selected_harts (hart_count (talk_of self.now)) threads }
    {
        match threads {
            Threads::All => Some(Selected::All),
            Threads::Any => Some(Selected::Any),
            Threads::One(thread) => match self.hart_of_thread(thread) {
                Some(hart) => Some(Selected::One(hart)),
                None => None,
            },
        }
    }
}
