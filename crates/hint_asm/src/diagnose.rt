//! What is wrong with a statement, given the kind of its fault.

use crate::found::{Among, Found};
use crate::labels::{Label, is_defined};
use crate::names::{FOREIGN_DIRECTIVES, FOREIGN_INSTRUCTIONS};
use crate::operands::{is_register, operand_fault, register_fault};
use crate::ranges::range_fault;
use crate::sentences::{
    ALIGNMENT, BRANCH_TOO_FAR, CAPITALS, COMMENT, FOREIGN, JUMP_TOO_FAR, LABEL_WITHOUT_COLON,
    NEAR_DIRECTIVE, NEAR_INSTRUCTION, NEAR_LABEL, NO_BYTES_IN_BSS, NO_DIRECTIVE, NO_HEAD,
    NO_INSTRUCTION, NO_VALUE, NONE_AHEAD, NONE_BEFORE, TOO_LARGE, UNALIGNED, UNDEFINED,
};
use crate::shape::{Row, Shape, rows_for, shape_of};
use crate::statement::Word;
use asm_lex::Kind;
use asm_statement::FaultKind;
use hint_text::{Form, Sentence, told_of};

// Whether some name of rows is this one in lower case.
fn is_in_capitals(rows: &[Row], name: &str) -> bool {
    'rows: for row in rows {
        if row
            .names
            .iter()
            .any(|known| name.eq_ignore_ascii_case(*known))
        {
            return true;
        }
    }
    false
}

// What is known of other assemblers' instructions and directives.
fn foreign(name: &str) -> Option<&'static str> {
    if name.starts_with(".") {
        told_of(&FOREIGN_DIRECTIVES, name)
    } else {
        told_of(&FOREIGN_INSTRUCTIONS, name)
    }
}

// What is wrong with the first name of a statement.
fn head_fault<'a>(head: &Word<'a>, rest: &[Word<'a>]) -> Option<Found<'a>> {
    let name = head.text;
    if !head.is(Kind::Name) {
        let is_comment = head.is(Kind::Other(b'/'));
        return Some(Found::on(head, if is_comment { COMMENT } else { NO_HEAD }));
    }
    if shape_of(name).is_some() {
        return None;
    }
    if let Some(what) = foreign(name) {
        return Some(Found::at(head, Sentence::of_two(FOREIGN, name, what)));
    }
    if is_in_capitals(rows_for(name), name) {
        return Some(Found::on(head, CAPITALS));
    }
    Some(unknown_head(head, rest))
}

// What is wrong with a name that is no instruction, by the word behind it.
fn unknown_head<'a>(head: &Word<'a>, rest: &[Word<'a>]) -> Found<'a> {
    match rest.first() {
        Some(next) if next.is(Kind::Other(b'=')) => Found::on(head, NO_VALUE),
        Some(next) if next.is(Kind::Name) && shape_of(next.text).is_some() => {
            Found::on(head, LABEL_WITHOUT_COLON)
        }
        Some(_) => Found::none_of(Among::Heads, head, NO_INSTRUCTION, NEAR_INSTRUCTION),
        None => Found::none_of(Among::Heads, head, LABEL_WITHOUT_COLON, NEAR_INSTRUCTION),
    }
}

// Whether the names behind a head are no labels: the sets of `fence`, the name of a section.
fn has_no_labels(head: &Word<'_>) -> bool {
    head.text == ".section" || shape_of(head.text) == Some(Shape::Fence)
}

// What is wrong with a directive, or with a statement in `.bss`.
fn directive_fault<'a>(head: &Word<'a>) -> Found<'a> {
    let name = head.text;
    if shape_of(name).is_some() {
        return Found::on(head, NO_BYTES_IN_BSS);
    }
    match foreign(name) {
        Some(what) => Found::at(head, Sentence::of_two(FOREIGN, name, what)),
        None => Found::none_of(Among::Heads, head, NO_DIRECTIVE, NEAR_DIRECTIVE),
    }
}

// The first name or local label of operands that is not defined.
fn undefined<'a>(operands: &[Word<'a>], labels: &[Label<'a>]) -> Option<Found<'a>> {
    let mut is_function = false;
    'words: for word in operands {
        let is_name = word.is(Kind::Name) && !is_function && !is_register(word.text);
        is_function = word.is(Kind::Percent);
        if is_name && !is_defined(labels, word.text) {
            return Some(Found::none_of(Among::Labels, word, UNDEFINED, NEAR_LABEL));
        }
    }
    local_fault(operands)
}

// What is wrong with a word that refers to a local label.
fn local_word<'a>(word: &Word<'a>) -> Option<Found<'a>> {
    let (form, end) = match word.kind {
        Kind::Ahead => (NONE_AHEAD, "f"),
        Kind::Back => (NONE_BEFORE, "b"),
        _ => return None,
    };
    let digits = word.text.strip_suffix(end).unwrap_or(word.text);
    Some(Found::at(word, Sentence::of(form, digits)))
}

// The first local label that is referred to.
fn local_fault<'a>(operands: &[Word<'a>]) -> Option<Found<'a>> {
    'words: for word in operands {
        let found = local_word(word);
        if found.is_some() {
            return found;
        }
    }
    None
}

// The sentence for an instruction whose target is too far, if it has one.
fn too_far(name: &str) -> Option<Form> {
    match shape_of(name)? {
        Shape::Branch | Shape::Zero => Some(BRANCH_TOO_FAR),
        Shape::Jump | Shape::Target => Some(JUMP_TOO_FAR),
        _ => None,
    }
}

// The sentence for a misaligned address.
fn align_form(name: &str) -> Form {
    match name {
        ".align" | ".p2align" => ALIGNMENT,
        _ => UNALIGNED,
    }
}

/// What is wrong with a statement without its labels, given the kind of its fault.
pub(crate) fn statement_fault<'a>(
    kind: FaultKind,
    statement: &[Word<'a>],
    labels: &[Label<'a>],
) -> Option<Found<'a>> {
    let [head, operands @ ..] = statement else {
        return None;
    };
    match kind {
        FaultKind::Token | FaultKind::Twice => None,
        FaultKind::Mnemonic => head_fault(head, operands),
        FaultKind::Directive => Some(directive_fault(head)),
        FaultKind::Operands => operand_fault(head, operands),
        FaultKind::Register => register_fault(operands),
        FaultKind::Range => range_fault(head, operands),
        FaultKind::Undefined if has_no_labels(head) => None,
        FaultKind::Undefined => undefined(operands, labels),
        FaultKind::BranchRange => Some(Found::on(head, too_far(head.text)?)),
        FaultKind::Align => Some(Found::on(head, align_form(head.text))),
        FaultKind::TooLarge => Some(Found::on(head, TOO_LARGE)),
    }
}
