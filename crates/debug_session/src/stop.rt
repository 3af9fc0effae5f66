//! The stops of a search.
ghost use Rattle.std.specs.Prelude.{◌≡◌};
ghost use Rattle.debug_session.specs.Stops.{stop_for};

/// What is watched of a word.
#[derive(Clone, Copy, PartialEq, Eq)]
pub enum WatchKind {
    /// That a step changes it.
    Change,
    /// That a step reads it.
    Read,
    /// That a step reads or writes it.
    Access,
}

/// A hart at a breakpoint.
#[derive(Clone, Copy, PartialEq, Eq)]
pub struct AtBreak {
    /// The hart's number, from 0.
    pub hart: u32,
    /// The breakpoint, a byte address.
    pub address: u32,
}

/// A watched word that a step has changed or accessed.
#[derive(Clone, Copy, PartialEq, Eq)]
pub struct WatchHit {
    /// What is watched of the word: of several that are hit, the first in the order of the kinds.
    pub kind: WatchKind,
    /// The address of its first byte; of several words that have changed, the lowest.
    pub address: u32,
}

/// The reason to stop at a position.
#[derive(Clone, Copy, PartialEq, Eq)]
pub enum Stop {
    /// The hart that stepped last is at a breakpoint, whether it moved or not.
    Break(AtBreak),
    /// Its step has hit a watch.
    Watch(WatchHit),
    /// Both.
    Both(AtBreak, WatchHit),
}

/// The stop at a breakpoint and at a hit, if there is one of them.
pub(crate) fn stop_for(at: Option<AtBreak>, hit: Option<WatchHit>) -> Option<Stop>
    ensures { result ≡ stop_for at hit }
{
    match (at, hit) {
        (None, None) => None,
        (Some(at), None) => Some(Stop::Break(at)),
        (None, Some(hit)) => Some(Stop::Watch(hit)),
        (Some(at), Some(hit)) => Some(Stop::Both(at, hit)),
    }
}
