//! The harts that GDB has chosen.

/// The harts that GDB has chosen, to read or to move. Hart h is its thread h + 1.
#[derive(Clone, Copy, Debug, PartialEq, Eq)]
pub enum Selected {
    /// All harts.
    All,
    /// Any hart: to read, that of the last stop.
    Any,
    /// One hart, by its number from 0.
    One(u32),
}
