//! The gate: a caller's code before, and in, each step of a hart that may access shared state.

/// Called by each hart's thread, without a lock, before the hart's local steps and one more step
/// are entered in the book. It may wait, and so decides which hart goes on.
pub trait Gate {
    ghost use Rattle.std.specs.Prelude.{ℕ};

    // That a hart has arrived with this count. Code that works with each gate can know it only from
    // a call of `arrive`, so whoever requires it makes that call needed.
    ghost HasArrived: { ℕ → ℕ → Type 0 } = { λ hart count. Unit {0} };

    /// Hart `hart` has done `count` local steps since its last entry in the book.
    fn arrive(&self, hart: u32, count: u32)
        ensures { HasArrived hart count };

    /// Hart `hart` has the locks of a step that accesses data of bank `bank`, from 0. Called only
    /// by a runner with a lock for each bank of memory.
    fn held(&self, _hart: u32, _bank: u32) {}
}

/// Lets each hart go on at once.
#[derive(Clone, Copy)]
pub struct OpenGate;

impl Gate for OpenGate {
    fn arrive(&self, _hart: u32, _count: u32) {}
}
