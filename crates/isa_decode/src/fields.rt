//! The fields of a word. Unprivileged ISA, "Base Instruction Formats" and "Immediate Encoding
//! Variants".
ghost use Rattle.std.specs.Prelude.{◌≡◌, ◌+◌, ◌*◌, ◌/◌, ◌%◌, ◌^◌};
ghost use Rattle.isa_table.specs.Decoded as spec;

use isa_table::{
    BranchOffset, FenceSet, Immediate12, JumpOffset, Reg, ShiftAmount, UpperImmediate,
};

/// Bits 14 to 12.
pub(crate) fn funct3(word: u32) -> u32
    ensures { result ≡ spec.funct3 word }
{
    (word >> 12) & 0x7
}

/// Bits 31 to 25.
pub(crate) fn funct7(word: u32) -> u32
    ensures { result ≡ spec.funct7 word }
{
    word >> 25
}

/// Bits 11 to 7.
pub(crate) fn rd(word: u32) -> Reg
    ensures { result ≡ spec.rd_of word }
{
    Reg::new(((word >> 7) & 0x1f) as u8)
}

/// Bits 19 to 15.
pub(crate) fn rs1(word: u32) -> Reg
    ensures { result ≡ spec.rs1_of word }
{
    Reg::new(((word >> 15) & 0x1f) as u8)
}

/// Bits 24 to 20.
pub(crate) fn rs2(word: u32) -> Reg
    ensures { result ≡ spec.rs2_of word }
{
    Reg::new(((word >> 20) & 0x1f) as u8)
}

/// Bits 24 to 20, as a shift amount.
pub(crate) fn shift_amount(word: u32) -> ShiftAmount
    ensures { result ≡ spec.rs2_of word }
{
    ShiftAmount::new(((word >> 20) & 0x1f) as u8)
}

/// The low four bits of a word.
pub(crate) fn fence_set(word: u32) -> FenceSet
    ensures { result ≡ word % 2 ^ 4 }
{
    FenceSet::new((word & 0xf) as u8)
}

/// The immediate of the I format.
pub(crate) fn immediate(word: u32) -> Immediate12
    ensures { result ≡ spec.i_immediate word }
{
    Immediate12::extend(word >> 20)
}

/// The immediate of the S format.
pub(crate) fn store_immediate(word: u32) -> Immediate12
    ensures { result ≡ spec.s_immediate word }
{
    Immediate12::extend((word >> 25) << 5 | (word >> 7) & 0x1f)
}

/// The offset of the B format.
pub(crate) fn branch_offset(word: u32) -> BranchOffset
    ensures { result ≡ spec.b_immediate word }
{
    BranchOffset::extend(branch_field(word))
}

// The 13 bits of a branch offset.
#[tactic(auto, using(isa_table::proofs::Or::places))]
fn branch_field(word: u32) -> u32
    ensures { result ≡ spec.bits word 31 1 * 2 ^ 12 + spec.bits word 7 1 * 2 ^ 11
        + spec.bits word 25 6 * 2 ^ 5 + spec.bits word 8 4 * 2 }
{
    (word >> 31) << 12
        | ((word >> 7) & 0x1) << 11
        | ((word >> 25) & 0x3f) << 5
        | ((word >> 8) & 0xf) << 1
}

/// The immediate of the U format.
pub(crate) fn upper_immediate(word: u32) -> UpperImmediate
    ensures { result ≡ spec.u_immediate word }
{
    UpperImmediate::new(word >> 12)
}

/// The offset of the J format.
pub(crate) fn jump_offset(word: u32) -> JumpOffset
    ensures { result ≡ spec.j_immediate word }
{
    JumpOffset::extend(jump_field(word))
}

// The 21 bits of a jump offset.
#[tactic(auto, using(isa_table::proofs::Or::places))]
fn jump_field(word: u32) -> u32
    ensures { result ≡ spec.bits word 31 1 * 2 ^ 20 + spec.bits word 12 8 * 2 ^ 12
        + spec.bits word 20 1 * 2 ^ 11 + spec.bits word 21 10 * 2 }
{
    (word >> 31) << 20
        | ((word >> 12) & 0xff) << 12
        | ((word >> 20) & 0x1) << 11
        | ((word >> 21) & 0x3ff) << 1
}
