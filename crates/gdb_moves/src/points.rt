//! Breakpoints and watches.
ghost use Rattle.std.specs.Prelude.{◌≡◌, [], OnOk, OnErr};
ghost use Rattle.debug_session.specs.Points.{with_address, without_address};
ghost use Rattle.gdb_moves.specs.Points.{marked, has_watch, with_watch, without_watch, marked_with, marked_without};

use crate::watch::{Watch, is_same};
use debug_session::WatchKind;
use gdb_requests::{Point, PointKind};
use std::alloc::{AllocError, Allocator};
use std::collections::BTreeSet;

/// GDB's breakpoints, by their addresses, and its watches, in the order in which they were put in.
#[derive(Drop)]
pub struct Points<A: Allocator + Copy> {
    pub(crate) software: BTreeSet<u32, A>,
    pub(crate) hardware: BTreeSet<u32, A>,
    pub(crate) watches: Vec<Watch, A>,
}

// Whether a watch is in.
fn has_watch(watches: &[Watch], watch: Watch) -> bool
    ensures { result ≡ has_watch watches.now watch }
{
    watches.iter().any(|other| is_same(*other, watch))
}

// Puts a watch in, unless it is.
fn put_in<A: Allocator>(watches: &mut Vec<Watch, A>, watch: Watch) -> Result<(), AllocError>
    ensures ok { OnOk result (watches.new.items ≡ with_watch watches.old.items watch) }
    ensures err { OnErr result (watches.new.items ≡ watches.old.items) }
{
    if has_watch(watches, watch) {
        return Ok(());
    }
    watches.push(watch)?;
    Ok(())
}

// Takes a watch out, if it is in.
fn take_out<A: Allocator>(watches: &mut Vec<Watch, A>, watch: Watch)
    ensures { watches.new.items ≡ without_watch watches.old.items watch }
{
    watches.retain(|other| !is_same(*other, watch));
}

// Puts an address in, unless it is.
fn add<A: Allocator + Copy>(
    addresses: &mut BTreeSet<u32, A>,
    address: u32,
) -> Result<(), AllocError>
    ensures ok { OnOk result (addresses.new.keys ≡ with_address addresses.old.keys address) }
    ensures err { OnErr result (addresses.new.keys ≡ addresses.old.keys) }
{
    match addresses.insert(address) {
        Ok(_) => Ok(()),
        Err(_) => Err(AllocError),
    }
}

// The watch of a kind over a point's bytes.
fn watch(kind: WatchKind, point: Point) -> Watch
    ensures { result ≡ record { kind = kind; address = point.address; length = point.length } }
{
    Watch {
        kind,
        address: point.address,
        length: point.length,
    }
}

impl<A: Allocator + Copy> Points<A> {
    /// No points.
    pub fn new(alloc: A) -> Points<A>
        ensures { marked result ≡ record { software = []; hardware = []; watches = [] } }
    {
        Points {
            software: BTreeSet::new(alloc),
            hardware: BTreeSet::new(alloc),
            watches: Vec::new(alloc),
        }
    }

    /// Puts a point in; nothing changes if it is. Of a breakpoint only the address counts. Fails
    /// when out of memory.
    pub fn insert(&mut self, point: Point) -> Result<(), AllocError>
        ensures ok { OnOk result (marked self.new ≡ marked_with (marked self.old) point) }
        ensures err { OnErr result (marked self.new ≡ marked self.old) }
    {
        match point.kind {
            PointKind::Software => add(&mut self.software, point.address),
            PointKind::Hardware => add(&mut self.hardware, point.address),
            PointKind::Write => put_in(&mut self.watches, watch(WatchKind::Change, point)),
            PointKind::Read => put_in(&mut self.watches, watch(WatchKind::Read, point)),
            PointKind::Access => put_in(&mut self.watches, watch(WatchKind::Access, point)),
        }
    }

    /// Takes a point out; nothing changes if it is not in.
    pub fn remove(&mut self, point: Point)
        ensures { marked self.new ≡ marked_without (marked self.old) point }
    {
        match point.kind {
            PointKind::Software => {
                self.software.remove(&point.address);
            }
            PointKind::Hardware => {
                self.hardware.remove(&point.address);
            }
            PointKind::Write => take_out(&mut self.watches, watch(WatchKind::Change, point)),
            PointKind::Read => take_out(&mut self.watches, watch(WatchKind::Read, point)),
            PointKind::Access => take_out(&mut self.watches, watch(WatchKind::Access, point)),
        }
    }
}
