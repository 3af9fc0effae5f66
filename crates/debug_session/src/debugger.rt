//! The state of a debugger.
ghost use Rattle.std.specs.Prelude.{◌≡◌, ◌≤◌, vec_len};
ghost use Rattle.machine.specs.State.{reached};
ghost use Rattle.debug_session.specs.Paged.{paged_world};

use crate::paged_machine::PagedMachine;
use crate::points::Points;
use crate::track::Track;
use std::alloc::Allocator;

/// A run and a position in it, with breakpoints and watched words. Position k is that after the
/// first k choices.
#[derive(Drop)]
pub struct Debugger<A: Allocator + Copy> {
    pub(crate) track: Track<A>,
    pub(crate) position: usize,
    pub(crate) cost: u64,
    pub(crate) machine: PagedMachine<A>,
    pub(crate) points: Points<A>,
    ghost inside: { position ≤ vec_len track.choices },
    ghost here: { paged_world machine
        ≡ reached track.image track.inputs track.choices.items position },
}
