//! What is expected of a hart that still runs at the end.

use outcome::Exit;

/// The expectation with or without `--must-exit`.
pub(crate) fn exit_of(must_exit: bool) -> Exit {
    if must_exit { Exit::Must } else { Exit::May }
}
