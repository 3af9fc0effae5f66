//! Laws: the words of a line, and its addresses.
ghost use Rattle.std.specs.Prelude.{◌≡◌, ℕ, List, [], Some, Ok};
ghost use Rattle.elf_read.specs.Symbol.{SymbolValue};
ghost use Rattle.debug_text.specs.Numbers.{read_address};
ghost use Rattle.debug_text.specs.Addresses.{address_meant, or_bad};
ghost use Rattle.debug_text.specs.Commands.{command_of};
ghost use Rattle.debug_text.specs.Lines.{HasWords, command_of_words};

/// Each line has words with spaces between and around them, and is the command of these.
pub fn lines_are_commands_of_words()
    ensures words { (line : List ℕ) → (words : List (List ℕ)) × HasWords line words }
    ensures command { (symbols : List SymbolValue) (line : List ℕ) (words : List (List ℕ))
        → HasWords line words → command_of symbols line ≡ command_of_words symbols words }
{}

/// A number is no name, whatever the symbols are. Without symbols an address is a number.
pub fn numbers_are_no_names()
    ensures number { (symbols : List SymbolValue) (text : List ℕ) (a : ℕ)
        → read_address text ≡ Some a → address_meant symbols text ≡ Ok a }
    ensures without { (text : List ℕ) → address_meant [] text ≡ or_bad (read_address text) }
{}
