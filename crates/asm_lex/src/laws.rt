//! Laws of the token rules.
ghost use Rattle.std.specs.Prelude.{◌≡◌, ℕ, List};
ghost use Rattle.asm_lex.specs.declared.token.Token.{Token};
ghost use Rattle.asm_lex.specs.Grammar.{Reads};
ghost use Rattle.asm_lex.specs.Reading.{reading};
ghost use Rattle.asm_lex.specs.Lexemes.{lexed_of, lexed};

/// A text has at most one list of tokens.
pub fn one_reading()
    ensures { (text : List ℕ) (ts us : List Token) → Reads 0 text ts → Reads 0 text us → ts ≡ us }
{}

/// The lexemes of a text, read from its tokens' spans, equal those that its bytes give piece by
/// piece.
pub fn spans_do_not_matter()
    ensures { (text : List ℕ) → lexed_of text (reading 0 0 text) ≡ lexed 0 text }
{}
