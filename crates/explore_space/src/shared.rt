//! What harts share.
use explore_sites::Cell;
use hart_reservations::MAX_HARTS;
use std::alloc::Allocator;

/// Reservations, and the words that may differ from the image's.
#[derive(Drop)]
pub struct Shared<A: Allocator> {
    /// The word that each hart has reserved.
    pub marks: [Option<u32>; MAX_HARTS],
    /// The words that may differ.
    pub cells: Vec<Cell, A>,
}
