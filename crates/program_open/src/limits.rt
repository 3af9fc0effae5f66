//! Laws of programs of words.
ghost use Rattle.std.specs.Prelude.{◌≡◌, ℕ, ◌≤◌, ◌↔◌, List, length};
ghost use Rattle.std.specs.declared.result.Result.TheVariants.{Ok, Err};
ghost use Rattle.text_items.specs.Items.{items_from};
ghost use Rattle.program_open.specs.HexImage.{hex_base, hex_size};
ghost use Rattle.program_open.specs.HexText.{most_words, hex_words, AreHexWords, SpoilsWords};
ghost use Rattle.program_open.specs.declared.hex.HexFault.{HexFault};
ghost use Rattle.program_open.specs.declared.hex.TheConstants.{MOST_WORDS};
ghost use Rattle.program_open.specs.declared.hex_program.TheConstants.{HEX_BASE, HEX_SIZE};

/// At most 2048 words, in a segment of 8192 bytes at 0x00010000: the code's constants are the
/// definitions'.
pub fn hex_programs_have_their_place()
    ensures base { HEX_BASE ≡ hex_base }
    ensures size { HEX_SIZE ≡ hex_size }
    ensures words { MOST_WORDS ≡ most_words }
    ensures numerals { (hex_base ≡ 0x0001_0000) × (hex_size ≡ 8192) × (most_words ≡ 2048) }
{}

/// A text of words has at most 2048 items, each a word, and any other has a first bad item.
pub fn hex_texts_are_decided()
    ensures words { (text words : List ℕ) → (hex_words text ≡ Ok words)
        ↔ (AreHexWords (items_from 0 text) words × (length words ≤ 2048)) }
    ensures faults { (text : List ℕ) (fault : HexFault) → (hex_words text ≡ Err fault)
        ↔ SpoilsWords (items_from 0 text) fault }
{}
