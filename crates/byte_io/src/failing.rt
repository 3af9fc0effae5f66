//! Failing devices, for tests.
ghost use Rattle.std.specs.Prelude.{◌+◌, ◌≡◌, Some, []};

use crate::device::{DeviceFault, Sink, Source};

/// Passes `calls_before` calls on to a device, and fails every later one.
#[derive(Drop)]
pub struct Failing<D> {
    device: D,
    calls_before: u64,
    failures: u64,
}

impl<D> Failing<D> {
    /// Passes `calls_before` calls on, and fails every later one.
    pub fn new(device: D, calls_before: u64) -> Failing<D>
        ensures device { result.device ≡ device }
        ensures calls { result.calls_before ≡ calls_before }
        ensures none { result.failures ≡ 0 }
    {
        Failing {
            device,
            calls_before,
            failures: 0,
        }
    }

    /// The wrapped device.
    pub fn device(&self) -> &D
        ensures { result.now ≡ self.now.device }
    {
        &self.device
    }
}

impl<D: Source> Source for Failing<D> {
    ghost left = { λ s. D.left s.device };

    ghost failures = { λ s. s.failures + D.failures s.device };

    ghost room = { λ s. D.room s.device };

    fn read(&mut self, piece: &mut [u8]) -> Result<usize, DeviceFault> {
        if self.calls_before == 0 {
            self.failures += 1;
            return Err(DeviceFault);
        }
        self.calls_before -= 1;
        self.device.read(piece)
    }
}

impl<D: Sink> Sink for Failing<D> {
    ghost held = { λ s. D.held s.device };

    ghost failures = { λ s. s.failures + D.failures s.device };

    fn write(&mut self, piece: &[u8]) -> Result<usize, DeviceFault> {
        if self.calls_before == 0 {
            self.failures += 1;
            return Err(DeviceFault);
        }
        self.calls_before -= 1;
        self.device.write(piece)
    }
}

/// A full sink: it takes no byte.
#[derive(Drop)]
pub struct FullSink {
    failures: u64,
}

impl FullSink {
    /// A full sink with no failure so far.
    pub fn new() -> FullSink
        ensures held { ⟦<FullSink as Sink>⟧.held result ≡ Some [] }
        ensures failures { ⟦<FullSink as Sink>⟧.failures result ≡ 0 }
    {
        FullSink { failures: 0 }
    }
}

impl Sink for FullSink {
    ghost held = { λ s. Some [] };

    ghost failures = { λ s. s.failures };

    fn write(&mut self, piece: &[u8]) -> Result<usize, DeviceFault> {
        if piece.is_empty() {
            return Ok(0);
        }
        self.failures += 1;
        Err(DeviceFault)
    }
}
