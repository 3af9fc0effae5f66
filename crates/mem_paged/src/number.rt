//! Numbers to store.
ghost use Rattle.std.specs.Prelude.{◌≡◌};

/// A number of one, two or four bytes, little-endian in memory.
#[derive(Clone, Copy, PartialEq, Eq)]
pub enum Number {
    /// One byte.
    Byte(u8),
    /// Two bytes.
    Half(u16),
    /// Four bytes.
    Word(u32),
}

impl Number {
    ghost use Rattle.mem_paged.specs.Number.{width_of};

    /// The width in bytes.
    #[inline]
    pub fn width(self) -> u32
        ensures { result ≡ width_of self }
    {
        match self {
            Number::Byte(_) => 1,
            Number::Half(_) => 2,
            Number::Word(_) => 4,
        }
    }
}
