//! What a search looks for.
ghost use Rattle.std.specs.Prelude.{◌≡◌, ◌<◌, OnOk, IfOk, length};
ghost use Rattle.machine.specs.World.{step};
ghost use Rattle.debug_session.specs.Paged.{paged_world};
ghost use Rattle.debug_session.specs.Wishes.{Wish};

use crate::paged_machine::PagedMachine;
use machine::Choice;
use std::alloc::{AllocError, Allocator};

/// What a search looks for: choices with a reason to stop behind them.
pub trait Wanted<A: Allocator + Copy> {
    /// The reason to stop behind a choice.
    type Reason: Copy;

    /// The reason at a choice in the world before it, if there is one.
    ghost reason: { Self → Wish Self.Reason };

    /// Does a choice's step; returns the reason to stop behind it, if there is one. Fails when out
    /// of memory.
    fn step(
        &self,
        machine: &mut PagedMachine<A>,
        choice: Choice,
    ) -> Result<Option<Self::Reason>, AllocError>
        requires { choice.hart < length (paged_world machine.old).harts }
        ensures world { OnOk result (paged_world machine.new ≡ step (paged_world machine.old) choice) }
        ensures reason { IfOk result (λ why. why ≡ reason self.now (paged_world machine.old) choice) }
        ensures harts { length (paged_world machine.new).harts
            ≡ length (paged_world machine.old).harts };
}
