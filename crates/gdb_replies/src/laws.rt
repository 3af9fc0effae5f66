//! Laws of replies: what they say is read back.
ghost use Rattle.std.specs.Prelude.{◌≡◌, ◌<◌, ◌≤◌, ◌^◌, ℕ, List, [], ◌∷◌, ◌++◌, length, Some};
ghost use Rattle.std.specs.List.{All};
ghost use Rattle.gdb_requests.specs.Bytes.{paired_bytes};
ghost use Rattle.gdb_requests.specs.Numbers.{hex_number};
ghost use Rattle.gdb_replies.specs.Digits.{bytes_text, number_text, registers_text};
ghost use Rattle.gdb_replies.specs.Pieces.{ComesInPieces, piece_text};
ghost use Rattle.gdb_replies.specs.Reading.{words_read};

/// The digits of bytes are read back as the bytes.
pub fn bytes_read_back()
    ensures { (bytes : List ℕ) → All (λ b. b < 256) bytes
        → paired_bytes (bytes_text bytes) ≡ Some bytes }
{}

/// The digits of a number below 2^32 are read back as the number.
pub fn numbers_read_back()
    ensures { (n : ℕ) → n < 2 ^ 32 → hex_number (number_text n) ≡ Some n }
{}

/// The digits of registers and of the pc are read back as their values.
pub fn registers_read_back()
    ensures { (registers : List ℕ) (pc : ℕ) → All (λ r. r < 2 ^ 32) registers → pc < 2 ^ 32
        → words_read (registers_text registers pc) ≡ Some (registers ++ pc ∷ []) }
{}

/// The pieces of a text, put together, are the text, of whatever sizes they were asked for.
pub fn pieces_make_the_whole()
    ensures { (whole text : List ℕ) → ComesInPieces whole 0 text → text ≡ whole }
{}

/// A piece that isn't the last has a byte, if one was asked for.
pub fn pieces_go_on()
    ensures { (whole text : List ℕ) (from count : ℕ) → piece_text whole from count ≡ 109 ∷ text
        → 0 < count → 0 < length text }
{}

/// A piece has at most 0x4000 bytes with its letter.
pub fn pieces_fit()
    ensures { (whole : List ℕ) (from count : ℕ) → length (piece_text whole from count) ≤ 16384 }
{}
