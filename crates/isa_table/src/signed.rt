//! Words as signed numbers.
ghost use Rattle.std.specs.Prelude.{◌≡◌};
ghost use Rattle.isa_table.specs.Signed.{signed_of};

/// A 32-bit word as a signed number in two's complement: itself below 2^31, else less 2^32.
pub fn signed(word: u32) -> i64
    ensures { result ≡ signed_of word }
{
    if word < 0x8000_0000 {
        i64::from(word)
    } else {
        i64::from(word) - 0x1_0000_0000
    }
}
