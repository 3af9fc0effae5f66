//! The state of a machine.
ghost use Rattle.std.specs.Prelude.{◌≤◌, vec_len};
ghost use Rattle.hart_reservations.specs.Limit.{most_harts};

use hart_reservations::Reserve;
use hart_step::Hart;
use std::alloc::Allocator;

/// Harts that share a memory and its reservations. Each event is one step of one hart, and its
/// effect is visible to all harts before the next event: memory is sequentially consistent.
#[derive(Drop)]
pub struct Machine<S, A: Allocator> {
    pub(crate) harts: Vec<Hart, A>,
    pub(crate) store: S,
    pub(crate) reserve: Reserve,
    ghost few: { vec_len harts ≤ most_harts },
}
