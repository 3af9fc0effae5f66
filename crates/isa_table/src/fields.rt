//! The operands of instructions, each in range by its type. A contract sees each as its number.
//! Unprivileged ISA, "Immediate Encoding Variants".
ghost use Rattle.std.specs.Prelude.{negsuc, pos, ◌≤ℤ◌, MatchOption, IfSome, IsSome, ◌↔◌, ◌≡◌, ℕ};
ghost use Rattle.std.specs.Prelude.{◌+◌, ◌-◌, ◌*◌, ◌/◌, ◌%◌, ◌^◌, ◌<◌, ◌≤◌};
ghost use Rattle.isa_table.specs.Signed.{signed_of};
ghost use Rattle.isa_table.specs.Ranges.{sign_extend, IsSignedWord};

use crate::signed::signed;
use std::marker::Model;

/// A register, x0 to x31, by its number. x0 is always zero.
#[derive(Clone, Copy, PartialEq, Eq)]
pub struct Reg {
    number: u8,
}

impl Model for Reg {
    ghost Value = { ℕ };

    ghost view = { λ a. a.number };

    ghost invariant = { λ a. a.number < 2 ^ 5 };

    ghost inverse = { λ n. record { number = n } };
}

impl Reg {
    /// `zero`: always zero.
    pub const ZERO: Reg = Reg { number: 0 };

    /// `ra`: the return address.
    pub const RA: Reg = Reg { number: 1 };

    /// `t1`: a temporary register.
    pub const TEMPORARY_1: Reg = Reg { number: 6 };

    /// The register with this number, below 32.
    pub fn new(number: u8) -> Self
        requires { number < 2 ^ 5 }
        ensures { result ≡ number }
    {
        Reg { number }
    }

    /// 0 to 31.
    pub fn number(self) -> u8
        ensures value { result ≡ self }
        ensures range { self < 2 ^ 5 }
    {
        self.number
    }
}

/// A shift amount, 0 to 31.
#[derive(Clone, Copy, PartialEq, Eq)]
pub struct ShiftAmount {
    count: u8,
}

impl Model for ShiftAmount {
    ghost Value = { ℕ };

    ghost view = { λ a. a.count };

    ghost invariant = { λ a. a.count < 2 ^ 5 };

    ghost inverse = { λ n. record { count = n } };
}

impl ShiftAmount {
    /// The shift amount of this count, below 32.
    pub fn new(count: u8) -> Self
        requires { count < 2 ^ 5 }
        ensures { result ≡ count }
    {
        ShiftAmount { count }
    }

    /// 0 to 31.
    pub fn count(self) -> u8
        ensures value { result ≡ self }
        ensures range { self < 2 ^ 5 }
    {
        self.count
    }
}

/// The ordering bits of an instruction of the A extension, aq and rl. A extension, "Specifying
/// Ordering of Atomic Instructions".
#[derive(Clone, Copy, PartialEq, Eq)]
pub struct Order {
    /// Acquire: later accesses of the hart come after this one.
    pub aq: bool,
    /// Release: earlier accesses of the hart come before this one.
    pub rl: bool,
}

impl Order {
    /// No ordering.
    pub const NONE: Order = Order {
        aq: false,
        rl: false,
    };

    /// Acquire only.
    pub const ACQUIRE: Order = Order {
        aq: true,
        rl: false,
    };

    /// Release only.
    pub const RELEASE: Order = Order {
        aq: false,
        rl: true,
    };

    /// Acquire and release.
    pub const BOTH: Order = Order { aq: true, rl: true };
}

/// Four bits of a fence: a set of accesses (device input 8, device output 4, read 2, write 1), or
/// its mode.
#[derive(Clone, Copy, PartialEq, Eq)]
pub struct FenceSet {
    bits: u8,
}

impl Model for FenceSet {
    ghost Value = { ℕ };

    ghost view = { λ a. a.bits };

    ghost invariant = { λ a. a.bits < 2 ^ 4 };

    ghost inverse = { λ n. record { bits = n } };
}

impl FenceSet {
    /// The set with these bits, below 16.
    pub fn new(bits: u8) -> Self
        requires { bits < 2 ^ 4 }
        ensures { result ≡ bits }
    {
        FenceSet { bits }
    }

    /// 0 to 15.
    pub fn bits(self) -> u8
        ensures value { result ≡ self }
        ensures range { self < 2 ^ 4 }
    {
        self.bits
    }
}

/// The immediate of LUI and AUIPC: bits 31 to 12 of the word that it stands for.
#[derive(Clone, Copy, PartialEq, Eq)]
pub struct UpperImmediate {
    high: u32,
}

impl Model for UpperImmediate {
    ghost Value = { ℕ };

    ghost view = { λ a. a.high };

    ghost invariant = { λ a. a.high < 2 ^ 20 };

    ghost inverse = { λ n. record { high = n } };
}

impl UpperImmediate {
    /// The immediate with these 20 bits, below 2^20.
    pub fn new(high: u32) -> Self
        requires { high < 2 ^ 20 }
        ensures { result ≡ high }
    {
        UpperImmediate { high }
    }

    /// The 20 bits, not shifted: 0 to 0xfffff.
    pub fn high(self) -> u32
        ensures value { result ≡ self }
        ensures range { self < 2 ^ 20 }
    {
        self.high
    }
}

/// A 12-bit immediate, -2048 to 2047, held as the 32-bit word that it is sign-extended to.
#[derive(Clone, Copy, PartialEq, Eq)]
pub struct Immediate12 {
    word: u32,
}

impl Model for Immediate12 {
    ghost Value = { ℕ };

    ghost view = { λ a. a.word };

    ghost invariant = { λ a. IsSignedWord 12 a.word };

    ghost inverse = { λ n. record { word = n } };
}

impl Immediate12 {
    /// The immediate of a number; `None` below -2048 and above 2047.
    pub fn of_signed(value: i64) -> Option<Self>
        ensures some { IfSome result (λ imm. signed_of imm ≡ value) }
        ensures only { IsSome result ↔ ((negsuc 2047 ≤ℤ value) × (value ≤ℤ pos 2047)) }
    {
        if value < -2048 || value > 2047 {
            return None;
        }
        let word = if value < 0 {
            (value + 0x1_0000_0000) as u32
        } else {
            value as u32
        };
        Some(Immediate12 { word })
    }

    /// As a signed number, -2048 to 2047.
    pub fn value(self) -> i64
        ensures value { result ≡ signed_of self }
        ensures range { (negsuc 2047 ≤ℤ result) × (result ≤ℤ pos 2047) }
    {
        signed(self.word)
    }

    /// The immediate of a word that is the sign extension of its low 12 bits; `None` for any other.
    pub fn of_word(word: u32) -> Option<Self>
        ensures { MatchOption result (¬ IsSignedWord 12 word)
            (λ imm. (imm ≡ word) × IsSignedWord 12 word) }
    {
        if word < 0x800 || word >= 0xffff_f800 {
            Some(Immediate12 { word })
        } else {
            None
        }
    }

    /// The sign extension of a field of 12 bits, below 2^12.
    pub fn extend(field: u32) -> Self
        requires { field < 2 ^ 12 }
        ensures { result ≡ sign_extend 12 field }
    {
        Immediate12 {
            word: if field < 0x800 {
                field
            } else {
                field + 0xfffff000
            },
        }
    }

    /// The 32-bit word: negative numbers in two's complement.
    pub fn word(self) -> u32
        ensures value { result ≡ self }
        ensures range { IsSignedWord 12 self }
    {
        self.word
    }
}

/// The offset of a branch in bytes, even, -4096 to 4094, held as the 32-bit word that it is
/// sign-extended to.
#[derive(Clone, Copy, PartialEq, Eq)]
pub struct BranchOffset {
    word: u32,
}

impl Model for BranchOffset {
    ghost Value = { ℕ };

    ghost view = { λ a. a.word };

    ghost invariant = { λ a. IsSignedWord 13 a.word × (a.word % 2 ≡ 0) };

    ghost inverse = { λ n. record { word = n } };
}

impl BranchOffset {
    /// The offset of an even word that is the sign extension of its low 13 bits; `None` for any
    /// other.
    pub fn of_word(word: u32) -> Option<Self>
        ensures some { IfSome result (λ offset. offset ≡ word) }
        ensures only { IsSome result ↔ (IsSignedWord 13 word × (word % 2 ≡ 0)) }
    {
        if (word < 0x1000 || word >= 0xffff_f000) && word & 1 == 0 {
            Some(BranchOffset { word })
        } else {
            None
        }
    }

    /// The sign extension of a field of 13 bits, even and below 2^13.
    pub fn extend(field: u32) -> Self
        requires in_field { field < 2 ^ 13 }
        requires even { field % 2 ≡ 0 }
        ensures { result ≡ sign_extend 13 field }
    {
        BranchOffset {
            word: if field < 0x1000 {
                field
            } else {
                field + 0xffffe000
            },
        }
    }

    /// The 32-bit word: negative numbers in two's complement.
    pub fn word(self) -> u32
        ensures value { result ≡ self }
        ensures range { IsSignedWord 13 self }
        ensures even { self % 2 ≡ 0 }
    {
        self.word
    }
}

/// The offset of a jump in bytes, even, -2^20 to 2^20 - 2, held as the 32-bit word that it is
/// sign-extended to.
#[derive(Clone, Copy, PartialEq, Eq)]
pub struct JumpOffset {
    word: u32,
}

impl Model for JumpOffset {
    ghost Value = { ℕ };

    ghost view = { λ a. a.word };

    ghost invariant = { λ a. IsSignedWord 21 a.word × (a.word % 2 ≡ 0) };

    ghost inverse = { λ n. record { word = n } };
}

impl JumpOffset {
    /// The offset of an even word that is the sign extension of its low 21 bits; `None` for any
    /// other.
    pub fn of_word(word: u32) -> Option<Self>
        ensures some { IfSome result (λ offset. offset ≡ word) }
        ensures only { IsSome result ↔ (IsSignedWord 21 word × (word % 2 ≡ 0)) }
    {
        if (word < 0x10_0000 || word >= 0xfff0_0000) && word & 1 == 0 {
            Some(JumpOffset { word })
        } else {
            None
        }
    }

    /// The sign extension of a field of 21 bits, even and below 2^21.
    pub fn extend(field: u32) -> Self
        requires in_field { field < 2 ^ 21 }
        requires even { field % 2 ≡ 0 }
        ensures { result ≡ sign_extend 21 field }
    {
        JumpOffset {
            word: if field < 0x100000 {
                field
            } else {
                field + 0xffe00000
            },
        }
    }

    /// The 32-bit word: negative numbers in two's complement.
    pub fn word(self) -> u32
        ensures value { result ≡ self }
        ensures range { IsSignedWord 21 self }
        ensures even { self % 2 ≡ 0 }
    {
        self.word
    }
}
