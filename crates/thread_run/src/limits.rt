//! How many choices a run may make.
ghost use Rattle.std.specs.Prelude.{◌≡◌, ◌<◌, ◌⊎◌, MatchBool};
ghost use Rattle.thread_run.specs.Total.{IsUsedUp};

/// The greatest numbers of choices of a run.
#[derive(Clone, Copy)]
pub struct Limits {
    /// Of each hart: its budget.
    pub budget: u32,
    /// Of all harts together, if there is a total.
    pub total: Option<u32>,
}

impl Limits {
    /// Whether no hart makes a choice.
    pub(crate) fn allow_none(&self) -> bool
        ensures { MatchBool result ((self.now.budget ≡ 0) ⊎ IsUsedUp self.now.total 0)
            (0 < self.now.budget) }
    {
        self.budget == 0 || self.total == Some(0)
    }
}
