//! The kinds of bytes.
ghost use Rattle.std.specs.Prelude.{◌≡◌};
ghost use Rattle.asm_lex.specs.Bytes.{is_digit, is_name_byte, is_space_or_tab, is_printable, name_bytes};

const Y: bool = true;

const N: bool = false;

// For each byte whether it may stand in a name, thirty-two in a row.
static NAME_BYTES: [bool; 256] = [
    N, N, N, N, N, N, N, N, N, N, N, N, N, N, N, N, N, N, N, N, N, N, N, N, N, N, N, N, N, N, N, N,
    N, N, N, N, Y, N, N, N, N, N, N, N, N, N, Y, N, Y, Y, Y, Y, Y, Y, Y, Y, Y, Y, N, N, N, N, N, N,
    N, Y, Y, Y, Y, Y, Y, Y, Y, Y, Y, Y, Y, Y, Y, Y, Y, Y, Y, Y, Y, Y, Y, Y, Y, Y, Y, N, N, N, N, Y,
    N, Y, Y, Y, Y, Y, Y, Y, Y, Y, Y, Y, Y, Y, Y, Y, Y, Y, Y, Y, Y, Y, Y, Y, Y, Y, Y, N, N, N, N, N,
    N, N, N, N, N, N, N, N, N, N, N, N, N, N, N, N, N, N, N, N, N, N, N, N, N, N, N, N, N, N, N, N,
    N, N, N, N, N, N, N, N, N, N, N, N, N, N, N, N, N, N, N, N, N, N, N, N, N, N, N, N, N, N, N, N,
    N, N, N, N, N, N, N, N, N, N, N, N, N, N, N, N, N, N, N, N, N, N, N, N, N, N, N, N, N, N, N, N,
    N, N, N, N, N, N, N, N, N, N, N, N, N, N, N, N, N, N, N, N, N, N, N, N, N, N, N, N, N, N, N, N,
];

pub fn is_digit(byte: u8) -> bool
    ensures { result ≡ is_digit byte }
{
    byte.is_ascii_digit()
}

// The table, by reference.
#[inline(always)]
fn name_bytes() -> &'static [bool; 256]
    ensures { result.now ≡ name_bytes 0 256 }
{
    &NAME_BYTES
}

// Whether a byte may stand in a name, by the table.
#[inline(always)]
fn is_marked(marks: &[bool; 256], byte: u8) -> bool
    requires { marks.now ≡ name_bytes 0 256 }
    ensures { result ≡ is_name_byte byte }
{
    marks[byte as usize]
}

/// Whether a byte may stand in a name.
#[inline(always)]
pub fn is_name_byte(byte: u8) -> bool
    ensures { result ≡ is_name_byte byte }
{
    is_marked(name_bytes(), byte)
}

/// Whether a byte is a space or a tab.
pub fn is_blank(byte: u8) -> bool
    ensures { result ≡ is_space_or_tab byte }
{
    byte == b' ' || byte == b'\t'
}

/// Whether a byte is a printable ASCII character other than the space.
pub fn is_printable(byte: u8) -> bool
    ensures { result ≡ is_printable byte }
{
    byte.is_ascii_graphic()
}
