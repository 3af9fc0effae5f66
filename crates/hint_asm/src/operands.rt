//! What is wrong with the operands of a statement.

use crate::found::Found;
use crate::names::REGISTERS;
use crate::sentences::{
    CHARACTER, COMMENT, COUNT, LOAD_BY_NAME, NO_COMMA, NO_OFFSET, NO_REGISTER, REGISTER_BY,
    STORE_BY_NAME, STORE_OF_T0_BY_NAME, STRINGS, TAKES, WANTED,
};
use crate::shape::{Operand, Row, Shape, row_of};
use crate::statement::Word;
use asm_lex::Kind;
use hint_text::{Form, Sentence, Value};

/// Whether a name is a register's.
pub(crate) fn is_register(name: &str) -> bool {
    has_name(&REGISTERS, name)
}

fn has_name(names: &[&str], name: &str) -> bool {
    names.contains(&name)
}

// Whether an operand may end with a word.
fn ends_operand(word: &Word<'_>) -> bool {
    word.is(Kind::Close) || begins_operand(word)
}

// Whether an operand may begin with a word.
fn begins_operand(word: &Word<'_>) -> bool {
    matches!(
        word.kind,
        Kind::Name | Kind::Number(_) | Kind::Back | Kind::Ahead | Kind::Text
    )
}

// A sign that other assemblers use for a comment or a character.
fn foreign_sign<'a>(operands: &[Word<'a>]) -> Option<Found<'a>> {
    let mut after_slash = false;
    'words: for word in operands {
        if word.is(Kind::Other(b'\'')) {
            return Some(Found::on(word, CHARACTER));
        }
        if after_slash && (word.is(Kind::Other(b'/')) || word.is(Kind::Other(b'*'))) {
            return Some(Found::on(word, COMMENT));
        }
        after_slash = word.is(Kind::Other(b'/'));
    }
    None
}

// The first operand with no comma before it.
fn without_comma<'a>(operands: &[Word<'a>]) -> Option<Found<'a>> {
    let mut is_behind = false;
    'words: for word in operands {
        if is_behind && begins_operand(word) {
            return Some(Found::on(word, NO_COMMA));
        }
        is_behind = ends_operand(word);
    }
    None
}

// Number of operands, by the commas.
fn count_of(operands: &[Word<'_>]) -> usize {
    if operands.is_empty() {
        return 0;
    }
    let mut count = 1usize;
    'words: for word in operands {
        if word.is(Kind::Comma) {
            count = count.saturating_add(1);
        }
    }
    count
}

// Whether an instruction takes this number of operands.
fn takes(row: &Row, count: usize) -> bool {
    match row.shape {
        Shape::Directive => true,
        Shape::Fence => count == 0 || count == 2,
        Shape::Jump => count == 1 || count == 2,
        Shape::JumpRegister => 1 <= count && count <= 3,
        _ => count == row.operands.len(),
    }
}

// A wrong number of operands.
fn count_fault<'a>(name: &Word<'a>, row: &Row, given: usize) -> Option<Found<'a>> {
    if takes(row, given) {
        return None;
    }
    let sentence = Sentence::of_three(COUNT, name.text, row.takes, Value::Count(given));
    Some(Found::at(name, sentence))
}

// What to write instead of a load or a store by name.
fn by_name_form(name: &str, value: &str) -> Form {
    if name.starts_with("l") {
        LOAD_BY_NAME
    } else if value == "t0" {
        STORE_OF_T0_BY_NAME
    } else {
        STORE_BY_NAME
    }
}

// Whether there is a name in place of a load's or a store's address, where no register is intended.
fn by_name<'a>(name: &Word<'a>, shape: Shape, operands: &[Word<'a>]) -> Option<Found<'a>> {
    let [value, comma, symbol] = operands else {
        return None;
    };
    let is_by_name = shape == Shape::Memory && comma.is(Kind::Comma) && symbol.is(Kind::Name);
    if !is_by_name || is_register(symbol.text) {
        return None;
    }
    let form = by_name_form(name.text, value.text);
    let sentence = Sentence::of_three(form, name.text, value.text, Value::Text(symbol.text));
    Some(Found::at(symbol, sentence))
}

// Whether an operand has the expected form.
fn fits(wanted: Operand, first: &Word<'_>, len: usize) -> bool {
    match wanted {
        Operand::Register => len == 1 && first.is(Kind::Name),
        Operand::Immediate | Operand::Amount | Operand::Upper | Operand::Number => !first.is(
            Kind::Name,
        ),
        Operand::Target | Operand::Symbol => begins_operand(first),
        Operand::Address => len > 1,
        Operand::Place => first.is(Kind::Open),
    }
}

// What is wrong with one operand of an instruction that takes these.
fn part_fault<'a>(
    name: &Word<'a>,
    takes: &'static str,
    wanted: Operand,
    part: &[Word<'a>],
) -> Option<Found<'a>> {
    let first = part.first().unwrap_or(name);
    if !part.is_empty() && fits(wanted, first, part.len()) {
        return None;
    }
    if wanted == Operand::Place && part.len() > 1 {
        return Some(Found::at(first, Sentence::of(NO_OFFSET, name.text)));
    }
    let wanted = Value::Text(wanted.name());
    Some(Found::at(first, Sentence::of_three(WANTED, name.text, takes, wanted)))
}

// The first operand of an unexpected form.
fn misfit<'a>(
    name: &Word<'a>,
    takes: &'static str,
    wanted: &[Operand],
    operands: &[Word<'a>],
) -> Option<Found<'a>> {
    let parts = operands.split(|word| word.kind == Kind::Comma);
    'parts: for (part, wanted) in parts.zip(wanted.iter()) {
        let found = part_fault(name, takes, *wanted, part);
        if found.is_some() {
            return found;
        }
    }
    None
}

// The first operand of an unexpected form, if their number is right: `jal` and `jalr` may leave the
// first out.
fn form_fault<'a>(
    name: &Word<'a>,
    row: &Row,
    given: usize,
    operands: &[Word<'a>],
) -> Option<Found<'a>> {
    if given == row.operands.len() {
        misfit(name, row.takes, row.operands, operands)
    } else {
        None
    }
}

// The sentence if nothing else is found: what the name takes.
fn any_fault<'a>(name: &Word<'a>, row: &Row) -> Found<'a> {
    match name.text {
        ".ascii" | ".asciz" | ".string" => Found::on(name, STRINGS),
        _ => Found::at(name, Sentence::of_two(TAKES, name.text, row.takes)),
    }
}

/// What is wrong with the operands of a statement whose number or forms its name doesn't take.
pub(crate) fn operand_fault<'a>(name: &Word<'a>, operands: &[Word<'a>]) -> Option<Found<'a>> {
    let row = row_of(name.text)?;
    let given = count_of(operands);
    foreign_sign(operands)
        .or(without_comma(operands))
        .or(count_fault(name, row, given))
        .or(by_name(name, row.shape, operands))
        .or(form_fault(name, row, given, operands))
        .or(Some(any_fault(name, row)))
}

/// The first unknown name in a register's place.
pub(crate) fn register_fault<'a>(operands: &[Word<'a>]) -> Option<Found<'a>> {
    // `%lo`, its parenthesis and its name are no registers.
    let mut passed = 0u8;
    'words: for word in operands {
        if word.is(Kind::Percent) {
            passed = 3;
            continue;
        }
        if passed > 0 {
            passed -= 1;
            continue;
        }
        if word.is(Kind::Name) && !is_register(word.text) {
            return Some(Found::at(word, register_sentence(word.text)));
        }
    }
    None
}

// The first register with this name but for capitals or a `$`.
fn register_like<'a>(registers: &[&'a str], name: &str) -> Option<&'a str> {
    let plain = name.strip_prefix("$").unwrap_or(name);
    'registers: for register in registers {
        if plain.eq_ignore_ascii_case(*register) {
            return Some(*register);
        }
    }
    None
}

// What to write for a name that is no register.
fn register_sentence<'a>(name: &'a str) -> Sentence<'a> {
    match register_like(&REGISTERS, name) {
        Some(register) => Sentence::of_two(REGISTER_BY, name, register),
        None => Sentence::of(NO_REGISTER, name),
    }
}
