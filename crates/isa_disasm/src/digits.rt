//! Words as hexadecimal digits, two at a time.

ghost use Rattle.std.specs.Prelude.{◌≡◌, ◌<◌, ◌/◌, ◌%◌, false, slice_index};
ghost use Rattle.std.specs.Fmt.{digit_glyph};
ghost use Rattle.isa_names.specs.Digits.{word_text};
ghost use Rattle.isa_disasm.specs.Pairs.{pairs_from};

// The digits of each byte, by rising byte.
static PAIRS: [u8; 512] = *b"\
    000102030405060708090a0b0c0d0e0f101112131415161718191a1b1c1d1e1f\
    202122232425262728292a2b2c2d2e2f303132333435363738393a3b3c3d3e3f\
    404142434445464748494a4b4c4d4e4f505152535455565758595a5b5c5d5e5f\
    606162636465666768696a6b6c6d6e6f707172737475767778797a7b7c7d7e7f\
    808182838485868788898a8b8c8d8e8f909192939495969798999a9b9c9d9e9f\
    a0a1a2a3a4a5a6a7a8a9aaabacadaeafb0b1b2b3b4b5b6b7b8b9babbbcbdbebf\
    c0c1c2c3c4c5c6c7c8c9cacbcccdcecfd0d1d2d3d4d5d6d7d8d9dadbdcdddedf\
    e0e1e2e3e4e5e6e7e8e9eaebecedeeeff0f1f2f3f4f5f6f7f8f9fafbfcfdfeff";

// The digits of all bytes.
#[inline(always)]
fn pairs() -> &'static [u8; 512]
    ensures { result.now ≡ pairs_from 0 256 }
{
    &PAIRS
}

// The two digits of a byte, out of those of all bytes.
#[inline(always)]
fn pair_in(pairs: &[u8; 512], byte: u8) -> [u8; 2]
    requires { pairs.now ≡ pairs_from 0 256 }
    ensures high { slice_index result 0 ≡ digit_glyph false (byte / 16) }
    ensures low { slice_index result 1 ≡ digit_glyph false (byte % 16) }
{
    let place = 2 * byte as usize;
    [pairs[place], pairs[place + 1]]
}

/// The eight lower-case hexadecimal digits of a word.
#[inline(always)]
pub fn digits_of(word: u32) -> [u8; 8]
    ensures { result ≡ word_text word }
{
    let pairs = pairs();
    let [a, b] = pair_in(pairs, (word / 0x100_0000) as u8);
    let [c, d] = pair_in(pairs, (word / 0x1_0000 % 0x100) as u8);
    let [e, f] = pair_in(pairs, (word / 0x100 % 0x100) as u8);
    let [g, h] = pair_in(pairs, (word % 0x100) as u8);
    [a, b, c, d, e, f, g, h]
}

/// The lower-case hexadecimal digit of a number below 16.
#[inline(always)]
pub fn digit_of(number: u32) -> u8
    requires { number < 16 }
    ensures { result ≡ digit_glyph false number }
{
    match number {
        0..=9 => b'0' + number as u8,
        _ => b'a' + (number - 10) as u8,
    }
}
