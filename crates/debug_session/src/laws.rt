//! Laws: the ends of searches.
ghost use Rattle.std.specs.Prelude.{◌≤◌, ◌-◌};
ghost use Rattle.debug_session.specs.Session.{Session, length_of, reason_at, next_of, earlier_of};
ghost use Rattle.debug_session.specs.Wishes.{Wish};
ghost use Rattle.debug_session.specs.Searches.{IsLeastStop, IsGreatestStop};

/// A search forwards, whatever it looks for, ends at the least later position behind a wanted
/// choice, or at the end.
pub fn going_on_finds_the_least<R>()
    ensures { (wish : Wish R) (s : Session) → s.position ≤ length_of s
        → IsLeastStop (reason_at wish s) s.position (length_of s) (next_of wish s).0 (next_of wish s).1 }
{}

/// A search backwards ends at the greatest earlier position above 0 behind a wanted choice, or at
/// the start.
pub fn going_back_finds_the_greatest<R>()
    ensures { (wish : Wish R) (s : Session) → IsGreatestStop (reason_at wish s) (s.position - 1)
        (earlier_of wish s).0 (earlier_of wish s).1 }
{}
