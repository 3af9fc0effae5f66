//! Numbers of steps.

ghost use Rattle.std.specs.Prelude.{◌≡◌, ◌<◌, MatchOption};

/// A number of steps: 1 or more.
#[derive(Clone, Copy, Drop)]
pub struct Steps {
    count: u64,
    ghost some: { 0 < count },
}

impl Steps {
    /// So many steps; `None` exactly if they are 0.
    pub fn new(count: u64) -> Option<Steps>
        ensures { MatchOption result (count ≡ 0) (λ steps. steps.count ≡ count) }
    {
        if count == 0 {
            return None;
        }
        Some(Steps { count })
    }

    /// The number.
    pub fn count(self) -> u64
        ensures is { result ≡ self.count }
        ensures some { 0 < result }
    {
        self.count
    }
}
