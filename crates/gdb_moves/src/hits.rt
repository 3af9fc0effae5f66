//! The hits of watches.
ghost use Rattle.std.specs.Prelude.{◌≡◌};
ghost use Rattle.gdb_moves.specs.Touches.{hit_of, first_hit, watch_hit};

use crate::span::{changes, common, is_empty};
use crate::stop::StopReason;
use crate::watch::Watch;
use debug_session::{WatchKind, reads};
use hart_step::Access;

// The hit of a watch by an access, if it is one, given the bytes of the access's word before and
// after.
fn hit_of(watch: &Watch, access: Access, before: [u8; 4], after: [u8; 4]) -> Option<StopReason>
    ensures { result ≡ hit_of watch.now access before after }
{
    let span = common(watch, access);
    let address = span.from;
    match watch.kind {
        WatchKind::Change => {
            let word = access.address - access.address % 4;
            if changes(span, word, before, after) {
                Some(StopReason::Change { address })
            } else {
                None
            }
        }
        WatchKind::Read => {
            if reads(access.kind) && !is_empty(span) {
                Some(StopReason::Read { address })
            } else {
                None
            }
        }
        WatchKind::Access => {
            if is_empty(span) {
                None
            } else {
                Some(StopReason::Access { address })
            }
        }
    }
}

// The hit of the first watch that an access hits.
fn first_hit(
    watches: &[Watch],
    access: Access,
    before: [u8; 4],
    after: [u8; 4],
) -> Option<StopReason>
    ensures { result ≡ first_hit watches.now access before after }
{
    'watches: for watch in watches {
        let hit = hit_of(watch, access, before, after);
        if hit.is_some() {
            return hit;
        }
    }
    None
}

/// The hit of the first watch that an access hits, if there is an access.
pub fn watch_hit(
    watches: &[Watch],
    access: Option<Access>,
    before: [u8; 4],
    after: [u8; 4],
) -> Option<StopReason>
    ensures { result ≡ watch_hit watches.now access before after }
{
    match access {
        Some(access) => first_hit(watches, access, before, after),
        None => None,
    }
}
