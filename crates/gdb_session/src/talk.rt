//! The state of a session with GDB.
ghost use Rattle.std.specs.Prelude.{◌≡◌, [], None, true, false};
ghost use Rattle.debug_session.specs.Session.{session};
ghost use Rattle.gdb_session.specs.Talk.{talk_of};
ghost use Rattle.gdb_session.specs.declared.selected.Selected.TheVariants.{Any};

use crate::selected::Selected;
use debug_session::Debugger;
use gdb_moves::{AloneSteps, Points};
use gdb_replies::Stop;
use std::alloc::Allocator;

/// The state of a session with GDB: the run and the position in it, and what GDB has set.
#[derive(Drop)]
pub struct Talk<A: Allocator + Copy> {
    /// The run, and the position that GDB sees.
    pub debugger: Debugger<A>,
    /// GDB's breakpoints and watches.
    pub points: Points<A>,
    /// The hart that is read, from `Hg`.
    pub reads: Selected,
    /// The harts that move, from `Hc`.
    pub moves: Selected,
    /// The last stop, as GDB was told; `None` before the first move.
    pub stop: Option<Stop>,
    /// The steps of one hart alone that the last moves were; `None` if the last one was none.
    pub alone: Option<AloneSteps<A>>,
    /// Whether packets are acknowledged.
    pub acknowledges: bool,
    /// Whether GDB knows `swbreak` as a reason to stop.
    pub software_stops: bool,
}

impl<A: Allocator + Copy> Talk<A> {
    /// The state before the first packet, at the debugger's position.
    pub fn new(alloc: A, debugger: Debugger<A>) -> Talk<A>
        ensures { talk_of result ≡ record {
          session = session debugger;
          points = record { software = []; hardware = []; watches = [] };
          reads = Any;
          moves = Any;
          stop = None;
          alone = None;
          acknowledges = true;
          software_stops = false;
        } }
    {
        Talk {
            debugger,
            points: Points::new(alloc),
            reads: Selected::Any,
            moves: Selected::Any,
            stop: None,
            alone: None,
            acknowledges: true,
            software_stops: false,
        }
    }

    /// Forgets the steps alone, as a move by a command of the user's has to.
    pub fn forget_alone(&mut self)
        ensures { talk_of self.new ≡ record (talk_of self.old) { alone = None } }
    {
        self.alone = None;
    }
}
