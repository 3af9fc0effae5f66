//! Laws of the texts.

ghost use Rattle.std.specs.Prelude.{◌≡◌, ℕ, ◌<◌, ◌^◌, List, [], ◌∷◌, decimal};
ghost use Rattle.json.specs.Lex.{tokens};
ghost use Rattle.json.specs.Print.{quoted};
ghost use Rattle.json.specs.Token.{number, string};

/// Who reads the text of a string gets one string, of the same bytes.
pub fn strings_read_back()
    ensures { (text : List ℕ) → tokens (quoted text) ≡ string text ∷ [] }
{}

/// Who reads the text of a number gets one number, of the same digits.
pub fn numbers_read_back()
    ensures { (n : ℕ) → n < 2 ^ 64 → tokens (decimal n) ≡ number (decimal n) ∷ [] }
{}
