//! Breakpoints and watches are added and removed.
ghost use Rattle.std.specs.Prelude.{◌≡◌, OnOk, OnErr};
ghost use Rattle.hart_reservations.specs.Marks.{word_of};
ghost use Rattle.debug_session.specs.Session.{session};
ghost use Rattle.debug_session.specs.Points.{with_address, without_address, with_watched, without_watched};

use crate::debugger::Debugger;
use crate::stop::WatchKind;
use std::alloc::{AllocError, Allocator};

impl<A: Allocator + Copy> Debugger<A> {
    /// Adds a breakpoint at an address, unless there is one. Fails when out of memory.
    pub fn add_break(&mut self, address: u32) -> Result<(), AllocError>
        ensures ok { OnOk result (session self.new ≡ record (session self.old) {
          breaks = with_address (session self.old).breaks address;
        }) }
        ensures err { OnErr result (session self.new ≡ session self.old) }
        ensures cost { self.new.cost ≡ self.old.cost }
    {
        match self.points.breaks.insert(address) {
            Ok(_) => Ok(()),
            Err(_) => Err(AllocError),
        }
    }

    /// Watches the aligned word of an address, unless it is watched in this way. Fails when out of
    /// memory.
    pub fn add_watch(&mut self, kind: WatchKind, address: u32) -> Result<(), AllocError>
        ensures ok { OnOk result (session self.new ≡ record (session self.old) {
          watches = with_watched kind (session self.old).watches (word_of address);
        }) }
        ensures err { OnErr result (session self.new ≡ session self.old) }
        ensures cost { self.new.cost ≡ self.old.cost }
    {
        self.points.watches.add(kind, address)
    }

    /// Removes the breakpoint at an address, and the watches of its aligned word, if there are
    /// such.
    pub fn remove_points(&mut self, address: u32)
        ensures removed { session self.new ≡ record (session self.old) {
          breaks = without_address (session self.old).breaks address;
          watches = without_watched (session self.old).watches (word_of address);
        } }
        ensures cost { self.new.cost ≡ self.old.cost }
    {
        self.points.breaks.remove(&address);
        self.points.watches.remove(address);
    }
}
