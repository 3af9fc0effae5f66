//! Numbers as words, and words as the immediates of instructions.
ghost use Rattle.std.specs.Prelude.{◌≡◌};
ghost use Rattle.asm_assemble.specs.Numbers.{as_word, number12, number20, amount_of, hi, lo, distance, offset_of};

use asm_statement::FaultKind;
use isa_table::{BranchOffset, Immediate12, JumpOffset, ShiftAmount, UpperImmediate};

/// A number modulo 2^32.
#[tactic(auto, unfolding(crate::specs::Numbers::as_word))]
pub fn as_word(number: i64) -> u32
    ensures { result ≡ as_word number }
{
    (number.cast_unsigned() % 0x1_0000_0000) as u32
}

/// The 12-bit immediate with a number's value, or `Range`.
#[tactic(auto, unfolding(crate::specs::Numbers::as_word, crate::specs::Numbers::number12, crate::specs::Numbers::is_in_range))]
pub fn number12(number: i64) -> Result<Immediate12, FaultKind>
    ensures { result ≡ number12 number }
{
    if number < -2048 || number > 2047 {
        return Err(FaultKind::Range);
    }
    Ok(Immediate12::extend(as_word(number) % 4096))
}

/// The 20-bit immediate with a number's value, or `Range`.
#[tactic(auto, unfolding(crate::specs::Numbers::as_word, crate::specs::Numbers::number20, crate::specs::Numbers::is_in_range))]
pub fn number20(number: i64) -> Result<UpperImmediate, FaultKind>
    ensures { result ≡ number20 number }
{
    if number < 0 || number > 0xf_ffff {
        return Err(FaultKind::Range);
    }
    Ok(UpperImmediate::new(as_word(number)))
}

/// The shift amount with a number's value, or `Range`.
#[tactic(auto, unfolding(crate::specs::Numbers::as_word, crate::specs::Numbers::amount_of, crate::specs::Numbers::is_in_range))]
pub fn amount_of(number: i64) -> Result<ShiftAmount, FaultKind>
    ensures { result ≡ amount_of number }
{
    if number < 0 || number > 31 {
        return Err(FaultKind::Range);
    }
    Ok(ShiftAmount::new(as_word(number) as u8))
}

/// `%hi(v)`: the upper 20 bits of a value minus `%lo(v)`.
#[tactic(auto, unfolding(crate::specs::Numbers::hi))]
pub fn high_part(word: u32) -> UpperImmediate
    ensures { result ≡ hi word }
{
    let rounded = u64::from(word) + 0x800;
    UpperImmediate::new(((rounded / 4096) % 0x10_0000) as u32)
}

/// `%lo(v)`: the low 12 bits, signed.
#[tactic(auto, unfolding(crate::specs::Numbers::lo))]
pub fn low_part(word: u32) -> Immediate12
    ensures { result ≡ lo word }
{
    Immediate12::extend(word % 4096)
}

/// The distance from an address to a target, modulo 2^32.
#[tactic(auto, unfolding(crate::specs::Numbers::distance))]
pub fn distance(at: u128, target: u32) -> u32
    ensures { result ≡ distance at target }
{
    ((u128::from(target) + (0x1_0000_0000 - at % 0x1_0000_0000)) % 0x1_0000_0000) as u32
}

/// The branch offset of a word, or `BranchRange`.
#[tactic(auto, unfolding(crate::specs::Numbers::offset_of))]
pub fn branch_offset(word: u32) -> Result<BranchOffset, FaultKind>
    ensures { result ≡ offset_of 13 word }
{
    match BranchOffset::of_word(word) {
        Some(offset) => Ok(offset),
        None => Err(FaultKind::BranchRange),
    }
}

/// The jump offset of a word, or `BranchRange`.
#[tactic(auto, unfolding(crate::specs::Numbers::offset_of))]
pub fn jump_offset(word: u32) -> Result<JumpOffset, FaultKind>
    ensures { result ≡ offset_of 21 word }
{
    match JumpOffset::of_word(word) {
        Some(offset) => Ok(offset),
        None => Err(FaultKind::BranchRange),
    }
}
