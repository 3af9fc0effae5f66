//! Watches.
ghost use Rattle.std.specs.Prelude.{◌≡◌};
ghost use Rattle.gdb_moves.specs.Points.{is_same_kind, same_watch};

use debug_session::WatchKind;

/// A watch over bytes of memory.
#[derive(Clone, Copy)]
pub struct Watch {
    /// What it stops at.
    pub kind: WatchKind,
    /// The first address.
    pub address: u32,
    /// The number of bytes; they may end behind the last address.
    pub length: u32,
}

// Whether two kinds are the same.
fn is_same_kind(one: WatchKind, other: WatchKind) -> bool
    ensures { result ≡ is_same_kind one other }
{
    match (one, other) {
        (WatchKind::Change, WatchKind::Change) => true,
        (WatchKind::Read, WatchKind::Read) => true,
        (WatchKind::Access, WatchKind::Access) => true,
        _ => false,
    }
}

/// Whether two watches are the same.
pub fn is_same(one: Watch, other: Watch) -> bool
    ensures { result ≡ same_watch one other }
{
    is_same_kind(one.kind, other.kind) && one.address == other.address && one.length == other.length
}
