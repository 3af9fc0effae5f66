//! Where and why a move stops.
ghost use Rattle.std.specs.Prelude.{◌≡◌};
ghost use Rattle.gdb_moves.specs.Reasons.{hits_count, range_has};

use hart_step::Cause;

/// Why a move stops at a choice.
#[derive(Clone, Copy, PartialEq, Eq)]
pub enum StopReason {
    /// Its hart stands at a software breakpoint, and may at a hardware breakpoint too.
    Software,
    /// Its hart stands at a hardware breakpoint alone.
    Hardware,
    /// Its step changes a watched byte.
    Change {
        /// The lowest byte that is watched and accessed.
        address: u32,
    },
    /// Its step reads a watched byte.
    Read {
        /// The lowest byte that is watched and accessed.
        address: u32,
    },
    /// Its step reads or writes a watched byte.
    Access {
        /// The lowest byte that is watched and accessed.
        address: u32,
    },
    /// Its step faults.
    Fault(Cause),
    /// The thread's next step is that choice.
    Ready,
    /// The choice was the thread's step.
    Done,
}

/// A stop of a move: the hart that it is of, and why.
#[derive(Clone, Copy, PartialEq, Eq)]
pub struct ThreadStop {
    /// The hart's number, from 0. GDB's number of its thread is one more.
    pub hart: u32,
    /// Why the move stopped.
    pub reason: StopReason,
}

/// The harts whose hits and faults stop a move.
#[derive(Clone, Copy)]
pub enum Whose {
    /// Those of all harts.
    All,
    /// Those of this hart, which moves alone.
    One(u32),
}

/// Addresses from one on and below another.
#[derive(Clone, Copy)]
pub struct AddressRange {
    /// The first address.
    pub from: u32,
    /// The address behind the last.
    pub to: u32,
}

/// Whether a hart's hits and faults count.
pub fn counts(whose: Whose, hart: u32) -> bool
    ensures { result ≡ hits_count whose hart }
{
    match whose {
        Whose::All => true,
        Whose::One(number) => number == hart,
    }
}

/// Whether an address is in a range.
pub fn is_in_range(range: AddressRange, address: u32) -> bool
    ensures { result ≡ range_has range address }
{
    range.from <= address && address < range.to
}
