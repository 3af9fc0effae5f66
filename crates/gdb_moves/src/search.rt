//! The search of a move.
ghost use Rattle.std.specs.Prelude.{◌≡◌};
ghost use Rattle.gdb_moves.specs.Points.{marked};
ghost use Rattle.gdb_moves.specs.Reasons.{wanted_stop};

use crate::goal::{Goal, told};
use crate::points::Points;
use crate::stop::{ThreadStop, Whose};
use debug_session::{PagedMachine, Wanted};
use machine::Choice;
use std::alloc::{AllocError, Allocator};

/// The search of a move: its points, whose hits and faults count, and what it looks for.
#[derive(Clone, Copy)]
pub struct Search<'a, A: Allocator + Copy> {
    /// The breakpoints and watches.
    pub points: &'a Points<A>,
    /// Whose hits and faults count.
    pub whose: Whose,
    /// What it looks for.
    pub goal: Goal,
}

impl<'a, A: Allocator + Copy> Wanted<A> for Search<'a, A> {
    type Reason = ThreadStop;

    ghost reason = { λ s. wanted_stop (marked s.points.now) s.whose s.goal };

    fn step(
        &self,
        machine: &mut PagedMachine<A>,
        choice: Choice,
    ) -> Result<Option<ThreadStop>, AllocError> {
        let seen = self.points.see(machine, choice)?;
        let reason = self.goal.reason(choice.hart, seen);
        Ok(told(self.whose, choice.hart, reason))
    }
}
