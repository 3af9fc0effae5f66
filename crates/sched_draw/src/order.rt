//! The order in which a drawn schedule chooses harts.

ghost use Rattle.std.specs.Prelude.{◌≡◌, ◌<◌, ◌≤◌, ◌⊎◌, MatchOption};
ghost use Rattle.sched_draw.specs.Limits.{mixed_depth, mixed_mean, most_depth, most_mean};

/// The greatest mean length of bursts: the longest burst then has 2^32 - 1 choices.
pub const MOST_MEAN: u32 = 2_147_483_648;

/// The greatest depth. A schedule has one change point less than its depth.
pub const MOST_DEPTH: u32 = 1_000;

/// The mean length of bursts in choices: 1 to `MOST_MEAN`.
#[derive(Clone, Copy, Drop)]
pub struct Mean {
    choices: u32,
    ghost within: { (0 < choices) × (choices ≤ most_mean) },
}

impl Mean {
    /// A mean of `choices`; `None` exactly if that is 0 or greater than `MOST_MEAN`.
    pub fn new(choices: u32) -> Option<Mean>
        ensures { MatchOption result ((choices ≡ 0) ⊎ (most_mean < choices)) (λ mean. mean.choices ≡ choices) }
    {
        if choices == 0 || choices > MOST_MEAN {
            return None;
        }
        Some(Mean { choices })
    }

    /// That of mixed schedules.
    pub(crate) fn of_mixed() -> Mean
        ensures { result.choices ≡ mixed_mean }
    {
        Mean { choices: 10 }
    }

    /// The mean as a number of choices.
    pub fn choices(self) -> u32
        ensures is { result ≡ self.choices }
        ensures some { 0 < result }
        ensures most { result ≤ most_mean }
    {
        self.choices
    }
}

/// The depth of a schedule by priorities, 1 to `MOST_DEPTH`: it has one change point less.
#[derive(Clone, Copy, Drop)]
pub struct Depth {
    number: u32,
    ghost within: { (0 < number) × (number ≤ most_depth) },
}

impl Depth {
    /// A depth; `None` exactly if the number is 0 or greater than `MOST_DEPTH`.
    pub fn new(number: u32) -> Option<Depth>
        ensures { MatchOption result ((number ≡ 0) ⊎ (most_depth < number)) (λ depth. depth.number ≡ number) }
    {
        if number == 0 || number > MOST_DEPTH {
            return None;
        }
        Some(Depth { number })
    }

    /// That of mixed schedules.
    pub(crate) fn of_mixed() -> Depth
        ensures { result.number ≡ mixed_depth }
    {
        Depth { number: 20 }
    }

    /// The depth as a number.
    pub fn number(self) -> u32
        ensures is { result ≡ self.number }
        ensures some { 0 < result }
        ensures most { result ≤ most_depth }
    {
        self.number
    }
}

/// How a seed draws the hart of each choice.
#[derive(Clone, Copy, Drop)]
pub enum Order {
    /// From all harts, for each choice.
    Even,
    /// In bursts of one hart, of this mean length.
    Bursts(Mean),
    /// By priorities, of this depth. Such choices depend on which harts have stopped, so they are
    /// those of a run.
    Priorities(Depth),
    /// By the seed's remainder by 3: 0 draws evenly, 1 in bursts of 10 choices in the mean, and 2 by
    /// priorities of depth 20.
    Mixed,
}

impl Order {
    ghost use Rattle.sched_draw.specs.Schedules.{follows};

    /// Whether the choices can depend on the harts' states in a run.
    pub fn follows(self) -> bool
        ensures { result ≡ follows self }
    {
        match self {
            Order::Even | Order::Bursts(_) => false,
            Order::Priorities(_) | Order::Mixed => true,
        }
    }
}
