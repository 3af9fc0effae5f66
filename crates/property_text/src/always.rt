//! The text of a property of a word: `WORD OP NUMBER`.
ghost use Rattle.std.specs.Prelude.{◌≡◌};
ghost use Rattle.property_text.specs.Texts.{always_of, always_by};

use crate::comparison::comparison_of;
use crate::fault::PropertyFault;
use crate::number::number_meant;
use crate::places::word_meant;
use debug_text::next_word;
use elf_read::Symbol;
use property_judge::Property;
use std::alloc::Allocator;

// The property of three words.
fn always_by<A: Allocator>(
    symbols: &[Symbol<A>],
    word: &[u8],
    comparison: &[u8],
    number: &[u8],
) -> Result<Property, PropertyFault>
    ensures { result ≡ always_by symbols.now word.now comparison.now number.now }
{
    let word = word_meant(symbols, word)?;
    let Some(comparison) = comparison_of(comparison) else {
        return Err(PropertyFault::BadComparison);
    };
    let Some(number) = number_meant(number) else {
        return Err(PropertyFault::BadNumber);
    };
    Ok(Property::Always {
        word,
        comparison,
        number,
    })
}

/// The property of a word of memory that a text says, or why it says none. Its three words are
/// separated by spaces. Addresses may be given as symbols of the program, which are these.
#[tactic(auto, unfolding(crate::specs::Texts::always_of))]
pub fn read_always<A: Allocator>(
    symbols: &[Symbol<A>],
    text: &[u8],
) -> Result<Property, PropertyFault>
    ensures { result ≡ always_of symbols.now text.now }
{
    let (word, rest) = next_word(text);
    let (comparison, rest) = next_word(rest);
    let (number, rest) = next_word(rest);
    let (more, _) = next_word(rest);
    if number.is_empty() || !more.is_empty() {
        return Err(PropertyFault::BadProperty);
    }
    always_by(symbols, word, comparison, number)
}
