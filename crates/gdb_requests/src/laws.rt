//! Laws of requests.
ghost use Rattle.std.specs.Prelude.{◌≡◌, ◌↔◌, ◌<◌, ◌^◌, ℕ, List, Some};
ghost use Rattle.std.specs.Str.Parse.{IsNumeral, digits_value};
ghost use Rattle.gdb_requests.specs.Numbers.{hex_number};

/// A text is read as a number exactly if it is a numeral of base 16 with that value, below 2^32.
pub fn numbers_are_numerals()
    ensures { (text : List ℕ) (n : ℕ) → (hex_number text ≡ Some n)
        ↔ (IsNumeral 16 text × (digits_value 16 text ≡ n) × (n < 2 ^ 32)) }
{}
