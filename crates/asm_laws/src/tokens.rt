//! The laws that tie a text's lexemes and its first fault to its tokens.
ghost use Rattle.std.specs.Prelude.{◌≡◌, ◌↔◌, ℕ, List, true, Err};
ghost use Rattle.asm_lex.specs.declared.fault.TextFault.{TextFault};
ghost use Rattle.asm_lex.specs.declared.token.Token.{Token};
ghost use Rattle.asm_lex.specs.Grammar.{Reads};
ghost use Rattle.asm_lex.specs.Lexemes.{lexed, lexemes_in};
ghost use Rattle.asm_lex.specs.Reading.{reading, result_of_reading};
ghost use Rattle.asm_laws.specs.Tokens.{StopsWith};

/// The lexemes that the assembler reads are those of the tokens of the text's grammar, and all are
/// read exactly where the text has tokens.
pub fn tokens_are_lexed()
    ensures lexemes { (text : List ℕ) (ts : List Token) → Reads 0 text ts
        → lexed 0 text ≡ record { lexemes = lexemes_in text ts; whole = true } }
    ensures tokens { (text : List ℕ) → (lexed 0 text).whole ≡ true → (ts : List Token) × Reads 0 text ts }
{}

/// A text is refused with a fault exactly where that is the one of the first place, behind blanks,
/// comments and tokens, at which none of these stands.
pub fn first_token_fault()
    ensures { (text : List ℕ) (fault : TextFault)
        → (result_of_reading (reading 0 0 text) ≡ Err fault) ↔ StopsWith 0 text fault }
{}
