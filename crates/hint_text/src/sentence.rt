//! Sentences with values.

use std::alloc::{AllocError, Allocator};

/// A part of a sentence's form.
#[derive(Clone, Copy)]
pub enum Part {
    /// These words.
    Words(&'static str),
    /// The first value of the sentence.
    First,
    /// The second value.
    Second,
    /// The third value.
    Third,
}

/// The form of a sentence: its words, and the places of its values.
pub type Form = &'static [Part];

/// A value of a sentence.
#[derive(Clone, Copy)]
pub enum Value<'a> {
    /// A text as it is.
    Text(&'a str),
    /// A number of things, in decimal.
    Count(usize),
    /// A number, in decimal.
    Number(i64),
}

/// A sentence: its form, and its values.
#[derive(Clone, Copy)]
pub struct Sentence<'a> {
    /// The form.
    pub form: Form,
    /// The values, in order.
    pub values: [Value<'a>; 3],
}

impl<'a> Sentence<'a> {
    /// A sentence with one text.
    pub fn of(form: Form, first: &'a str) -> Sentence<'a> {
        Sentence::of_two(form, first, "")
    }

    /// A sentence with two texts.
    pub fn of_two(form: Form, first: &'a str, second: &'a str) -> Sentence<'a> {
        Sentence::of_three(form, first, second, Value::Text(""))
    }

    /// A sentence with two texts and another value.
    pub fn of_three(form: Form, first: &'a str, second: &'a str, third: Value<'a>) -> Sentence<'a> {
        let values = [Value::Text(first), Value::Text(second), third];
        Sentence { form, values }
    }
}

/// Appends a sentence, without LF.
pub fn push_sentence<A: Allocator>(
    text: &mut String<A>,
    sentence: &Sentence<'_>,
) -> Result<(), AllocError> {
    'parts: for part in sentence.form {
        push_part(text, *part, &sentence.values)?;
    }
    Ok(())
}

// Adds a part of a sentence that has these values.
fn push_part<A: Allocator>(
    text: &mut String<A>,
    part: Part,
    values: &[Value<'_>; 3],
) -> Result<(), AllocError> {
    match part {
        Part::Words(words) => text.push_str(words),
        Part::First => push_value(text, values[0]),
        Part::Second => push_value(text, values[1]),
        Part::Third => push_value(text, values[2]),
    }
}

// Adds a value.
fn push_value<A: Allocator>(text: &mut String<A>, value: Value<'_>) -> Result<(), AllocError> {
    match value {
        Value::Text(name) => text.push_str(name),
        Value::Count(count) => write!(text, "{count}"),
        Value::Number(number) => write!(text, "{number}"),
    }
}
