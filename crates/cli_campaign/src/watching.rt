//! A campaign's sink, which keeps the progress line apart from the output.

ghost use Rattle.std.specs.Prelude.{◌≡◌};

use byte_io::{DeviceFault, Sink};
use cli_report::{Audience, wipe_line};

/// Wipes the progress line, then passes bytes on.
#[derive(Drop)]
pub(crate) struct Watching<'a, R, K> {
    rt: &'a R,
    audience: Audience,
    sink: K,
    // What was passed on, if it is kept.
    passed: Option<Vec<u8>>,
}

impl<'a, R, K> Watching<'a, R, K> {
    /// Before the first write.
    pub(crate) fn new(
        rt: &'a R,
        audience: Audience,
        sink: K,
        passed: Option<Vec<u8>>,
    ) -> Watching<'a, R, K>
        ensures { result.sink ≡ sink }
    {
        Watching {
            rt,
            audience,
            sink,
            passed,
        }
    }

    /// Where bytes are passed on to.
    pub(crate) fn inner(&self) -> &K {
        &self.sink
    }

    /// What was passed on. `None` if it isn't kept, or out of memory for it.
    pub(crate) fn passed(&self) -> Option<&[u8]> {
        match &self.passed {
            Some(passed) => Some(passed.as_slice()),
            None => None,
        }
    }

    // Keeps more bytes, if any are kept.
    fn keep(&mut self, bytes: &[u8])
        ensures { self.new.sink ≡ self.old.sink }
    {
        let kept = match &mut self.passed {
            Some(passed) => passed.extend_from_slice(bytes).is_ok(),
            None => true,
        };
        if !kept {
            self.passed = None;
        }
    }
}

impl<'a, R: Eprint, K: Sink> Sink for Watching<'a, R, K> {
    ghost held = { λ s. K.held s.sink };

    ghost failures = { λ s. K.failures s.sink };

    fn write(&mut self, piece: &[u8]) -> Result<usize, DeviceFault> {
        wipe_line(self.rt, self.audience);
        let count = self.sink.write(piece)?;
        self.keep(&piece[..count]);
        Ok(count)
    }
}
