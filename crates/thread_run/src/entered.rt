//! What a commit to a running book comes to.

/// What a hart does after a commit.
#[derive(Clone, Copy)]
pub enum Entered {
    /// Nothing: it has stopped, or its budget or the total of all harts is used up.
    Done,
    /// It goes on: its segment is in the book.
    GoesOn,
    /// It begins its segment anew, with at most this many choices, which are left of the total.
    /// Nothing was entered.
    Short(u32),
}
