//! Tokens.
ghost use Rattle.std.specs.Prelude.{◌≡◌};
ghost use Rattle.asm_lex.specs.Lexemes.{text_in};

/// The kind of a token. Each punctuation sign is a kind of its own.
#[derive(Clone, Copy, PartialEq, Eq)]
pub enum Kind {
    /// A name: letters, digits, `_`, `.` and `$`, no digit first.
    Name,
    /// A number, with its value: decimal, `0x`, `0b`, or octal after a leading 0.
    Number(u32),
    /// Decimal digits and `b`: the last such numeric label before or at the statement.
    Back,
    /// Decimal digits and `f`: the next such numeric label after the statement.
    Ahead,
    /// A string, with its quotes; its escapes are not checked here.
    Text,
    /// `,`
    Comma,
    /// `(`
    Open,
    /// `)`
    Close,
    /// `+`
    Plus,
    /// `-`
    Minus,
    /// `%`
    Percent,
    /// `:`
    Colon,
    /// `;`
    Semicolon,
    /// Another printable ASCII character.
    Other(u8),
    /// LF or CR LF.
    LineEnd,
}

/// A token and its span: its bytes are those from offset `start` up to but not including `end`.
#[derive(Clone, Copy, PartialEq, Eq)]
pub struct Token {
    /// The kind.
    pub kind: Kind,
    /// The offset of its first byte.
    pub start: usize,
    /// The offset after its last byte.
    pub end: usize,
}

/// The bytes of a token of this source. Of a span that is not within the source, the part that is.
#[tactic(auto, unfolding(crate::specs::Lexemes::text_in))]
pub fn text_of<'a>(source: &'a [u8], token: &Token) -> &'a [u8]
    ensures { result.now ≡ text_in source.now token.now }
{
    let (_, rest) = source.split_at(token.start.min(source.len()));
    let len = token.end.saturating_sub(token.start);
    let (text, _) = rest.split_at(len.min(rest.len()));
    text
}
