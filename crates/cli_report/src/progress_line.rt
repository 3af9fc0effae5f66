//! The progress line of a terminal. It is wiped before anything else is written.

use crate::audience::Audience;

/// Moves to the beginning of a terminal's line and erases it: CR, and ECMA-48's "Erase in Line".
pub const WIPE: &str = "\r\x1b[K";

/// Wipes the line, if a person reads it.
pub fn wipe_line<R: Eprint>(rt: &R, audience: Audience) {
    if audience.sees_progress() {
        // If standard error is closed, nobody sees it.
        let _ = eprint!(rt; "{WIPE}");
    }
}
