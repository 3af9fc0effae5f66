//! Sources that give bytes and sinks that take them, in pieces.

ghost use Rattle.std.specs.Prelude.{◌≡◌, ◌+◌, ◌-◌, ◌^◌, ◌<◌, ◌≤◌, List, Option, ℕ, length, IfOk};
ghost use Rattle.std.specs.Io.KnownBytes.{ReadConsumes, WriteAppends};
ghost use Rattle.byte_io.specs.Device.{CountsFailure};

/// A device has failed.
#[derive(Clone, Copy, PartialEq, Eq)]
pub struct DeviceFault;

/// A source of bytes.
pub trait Source {
    /// The bytes that are left, if they are known.
    ghost left: { Self → Option (List ℕ) };

    /// Number of failed reads.
    ghost failures: { Self → ℕ };

    /// An upper bound on the number of bytes that are left.
    ghost room: { Self → ℕ };

    /// Reads into a piece, and returns the number of bytes read: 0 only at the end, or for an empty
    /// piece.
    fn read(&mut self, piece: &mut [u8]) -> Result<usize, DeviceFault>
        requires { failures self.old < 2 ^ 64 - 1 }
        ensures within { IfOk result (λ n. n ≤ length piece.old) }
        ensures shrinks { IfOk result (λ n. room self.new + n ≤ room self.old) }
        ensures bytes { ReadConsumes (left self.old) (left self.new) result piece.new }
        ensures count { CountsFailure result (failures self.old) (failures self.new) };
}

/// A sink for bytes.
pub trait Sink {
    /// The bytes that it holds, if they are known.
    ghost held: { Self → Option (List ℕ) };

    /// Number of failed writes.
    ghost failures: { Self → ℕ };

    /// Writes bytes from the front of a piece, and returns how many. Writing none of a piece that
    /// isn't empty is a failure.
    fn write(&mut self, piece: &[u8]) -> Result<usize, DeviceFault>
        requires { failures self.old < 2 ^ 64 - 1 }
        ensures within { IfOk result (λ n. n ≤ length piece.now) }
        ensures some { IfOk result (λ n. 0 < length piece.now → 0 < n) }
        ensures bytes { WriteAppends (held self.old) (held self.new) result piece.now }
        ensures count { CountsFailure result (failures self.old) (failures self.new) };
}
