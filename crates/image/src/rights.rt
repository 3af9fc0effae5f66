//! The rights of a segment.
ghost use Rattle.std.specs.Prelude.{⊤, ◌≡◌, ◌==◌, ◌%◌, [], ◌∷◌, codes, not};
ghost use Rattle.std.specs.Int.RustNames.{bit_and};

use bitflags::{Flag, Flags, bitflag_items};

/// The rights of a segment's bytes: the low bits of `p_flags` (System V ELF, "Program Header").
#[derive(Clone, Copy, PartialEq, Eq)]
pub struct Rights(u8);

bitflag_items! {
    impl Rights: u8 {
        const EXECUTE = 1;
        const WRITE = 2;
        const READ = 4;
    }
}

impl Flags for Rights {
    type Bits = u8;

    ghost exact = { ⊤ };

    ghost table = { (codes "EXECUTE", 1) ∷ (codes "WRITE", 2) ∷ (codes "READ", 4) ∷ [] };

    ghost set_of = { λ rights. rights.0 };

    fn flags<'a>() -> &'a [Flag<Rights>] {
        Rights::FLAGS
    }

    fn bits(&self) -> u8 {
        self.0
    }

    fn from_bits_retain(bits: u8) -> Rights {
        Rights(bits)
    }
}

impl Rights {
    /// All rights, for an access that any right allows.
    pub const ANY: Rights = Rights(7);

    /// The rights of a program header's flags: the low three bits. Higher bits are ignored.
    pub fn of_flags(p_flags: u32) -> Rights
        ensures { result.0 ≡ p_flags % 8 }
    {
        Rights((p_flags % 8) as u8)
    }

    /// The low three bits of the rights; no other bit has a meaning.
    pub(crate) fn low(self) -> Rights
        ensures { result.0 ≡ self.0 % 8 }
    {
        Rights(self.0 % 8)
    }

    /// Whether at least one of the wanted rights is given.
    #[inline]
    pub fn grants(&self, wanted: Rights) -> bool
        ensures { result ≡ not (bit_and self.now.0 wanted.0 == 0) }
    {
        self.0 & wanted.0 != 0
    }
}
