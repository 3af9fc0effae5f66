//! Numbers out of their ranges.

use crate::found::Found;
use crate::sentences::{OUT_OF_RANGE, TOO_LARGE_IMMEDIATE};
use crate::shape::{Range, Shape, row_of};
use crate::statement::Word;
use asm_lex::Kind;
use hint_text::{Sentence, Value};

/// The first number of a statement that is out of its range.
pub(crate) fn range_fault<'a>(name: &Word<'a>, operands: &[Word<'a>]) -> Option<Found<'a>> {
    let row = row_of(name.text)?;
    let range = row.range?;
    let outside = first_outside(operands, range)?;
    Some(Found::at(&outside, range_sentence(name.text, row.shape, range)))
}

// The first number that is out of a range.
fn first_outside<'a>(operands: &[Word<'a>], range: Range) -> Option<Word<'a>> {
    let mut negative = false;
    'words: for word in operands {
        if let Kind::Number(number) = word.kind {
            let value = if negative {
                -i64::from(number)
            } else {
                i64::from(number)
            };
            if value < range.from || range.to < value {
                return Some(*word);
            }
        }
        negative = word.is(Kind::Minus);
    }
    None
}

// The sentence for a number out of a range.
fn range_sentence<'a>(instruction: &'a str, shape: Shape, range: Range) -> Sentence<'a> {
    match shape {
        Shape::Immediate | Shape::Memory => Sentence::of(TOO_LARGE_IMMEDIATE, instruction),
        _ => Sentence {
            form: OUT_OF_RANGE,
            values: [
                Value::Text(instruction),
                Value::Number(range.from),
                Value::Number(range.to),
            ],
        },
    }
}
