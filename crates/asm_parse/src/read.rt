//! Sources to statements.
ghost use Rattle.std.specs.Prelude.{◌≡◌, ◌≤◌, ◌<◌, ◌-◌, ◌^◌, [], map, true, option_map, drop, length, IfOk, IfSome, Ok, OnOk};
ghost use Rattle.std.specs.List.{list_all};
ghost use Rattle.std.specs.Char.{is_ascii_digit};
ghost use Rattle.asm_lex.specs.Lexemes.{lexed, seen};
ghost use Rattle.asm_statement.specs.Answer.{GivesStatements};
ghost use Rattle.asm_statement.specs.Statement.{body_value};
ghost use Rattle.asm_statement.specs.Statements.{after_body, at_the_end, begun, ends_statement, first_place, label_of, labels_from, lines_ended, next_place, read_from, section_behind, source_statements, statement_from, statements_of, texts_of};

use crate::body::body;
use crate::place::{fault_at, first_place};
use crate::refusal::Refusal;
use asm_lex::{Lexeme, Next, next_lexeme};
use asm_statement::{AsmFault, Body, Directive, FaultKind, Name, Place, Section, Statement};
use std::alloc::{AllocError, Allocator};

fn are_digits(text: &str) -> bool
    ensures { result ≡ list_all is_ascii_digit text.now }
{
    text.as_bytes().iter().all(|byte| byte.is_ascii_digit())
}

// The label at the front.
#[tactic(auto, unfolding(asm_statement::specs::Statements::label_of))]
fn label_of<'a, A: Allocator>(lexemes: &[Lexeme<'a>]) -> Option<Body<'a, A>>
    ensures value { option_map body_value result ≡ label_of (map seen lexemes.now) }
    ensures within { IfSome result (λ _. 2 ≤ length lexemes.now) }
{
    match lexemes {
        [Lexeme::Name(name), Lexeme::Colon, ..] => Some(Body::Label(Name::new(name))),
        [Lexeme::Number(_, digits), Lexeme::Colon, ..] => {
            if are_digits(digits) {
                Some(Body::LocalLabel(Name::new(digits)))
            } else {
                None
            }
        }
        _ => None,
    }
}

// Appends the labels at the front of a statement; returns the number of their lexemes.
#[tactic(auto, using(crate::proofs::Labels::label_step, crate::proofs::Labels::no_label, crate::proofs::Labels::at_end))]
fn push_labels<'a, A: Allocator + Copy>(
    place: Place,
    lexemes: &[Lexeme<'a>],
    statements: &mut Vec<Statement<'a, A>, A>,
) -> Result<usize, AllocError>
    ensures labels { IfOk result (λ count. labels_from place statements.old.items (map seen lexemes.now)
        ≡ (statements.new.items, map seen (drop count lexemes.now))) }
    ensures within { IfOk result (λ count. count ≤ length lexemes.now) }
{
    let mut at = 0;
    'labels: while at < lexemes.len() {
        let (_, rest) = lexemes.split_at(at);
        let Some(body) = label_of(rest) else {
            return Ok(at);
        };
        let Place { source, line, .. } = place;
        statements.push(Statement { source, line, body })?;
        at += 2;
    }
    Ok(at)
}

// The section after a statement.
fn section_behind<A: Allocator>(section: Section, body: &Body<A>) -> Section
    ensures { result ≡ section_behind section (body_value body.now) }
{
    match body {
        Body::Directive(Directive::Section(next)) => *next,
        _ => section,
    }
}

// Appends the body of a statement, if it has one; returns the section after it.
fn push_body<'a, A: Allocator + Copy>(
    place: Place,
    body: Option<Body<'a, A>>,
    statements: &mut Vec<Statement<'a, A>, A>,
) -> Result<Section, AllocError>
    ensures { IfOk result (λ section. after_body place statements.old.items (Ok (option_map body_value body.entry))
        ≡ Ok (statements.new.items, section)) }
{
    match body {
        Some(body) => {
            let Place {
                source,
                line,
                section,
            } = place;
            let behind = section_behind(section, &body);
            statements.push(Statement { source, line, body })?;
            Ok(behind)
        }
        None => Ok(place.section),
    }
}

// Appends a statement's labels and its body; returns the section after it.
#[tactic(auto, unfolding(asm_statement::specs::Statements::statement_from))]
fn push_statement<'a, A: Allocator + Copy>(
    alloc: A,
    place: Place,
    lexemes: &[Lexeme<'a>],
    statements: &mut Vec<Statement<'a, A>, A>,
) -> Result<Section, AsmFault>
    ensures { GivesStatements (λ section. (statements.new.items, section)) result
        (statement_from place statements.old.items (map seen lexemes.now)) }
{
    let labels = push_labels(place, lexemes, statements)?;
    let (_, rest) = lexemes.split_at(labels);
    match body(alloc, place.section, rest) {
        Ok(body) => {
            let section = push_body(place, body, statements)?;
            Ok(section)
        }
        Err(Refusal::Wrong(kind)) => Err(fault_at(place, kind)),
        Err(Refusal::Memory) => Err(AsmFault::Memory),
    }
}

fn ends_statement(lexeme: Lexeme) -> bool
    ensures { result ≡ ends_statement (seen lexeme.entry) }
{
    matches!(lexeme, Lexeme::Semicolon | Lexeme::LineEnd)
}

// The number of lines that a lexeme ends.
fn lines_ended(lexeme: Lexeme) -> usize
    ensures value { result ≡ lines_ended (seen lexeme.entry) }
    ensures one { result ≤ 1 }
{
    match lexeme {
        Lexeme::LineEnd => 1,
        _ => 0,
    }
}

// The place of the statement after a lexeme that ends one.
fn next_place(place: Place, lexeme: Lexeme, section: Section) -> Place
    requires { place.line < 2 ^ 64 - 1 }
    ensures { result ≡ next_place place (seen lexeme.entry) section }
{
    Place {
        source: place.source,
        line: place.line + lines_ended(lexeme),
        section,
    }
}

// Appends a source's last statement.
fn push_last<'a, A: Allocator + Copy>(
    alloc: A,
    place: Place,
    lexemes: &[Lexeme<'a>],
    statements: &mut Vec<Statement<'a, A>, A>,
) -> Result<(), AsmFault>
    ensures { GivesStatements (λ _. statements.new.items) result
        (at_the_end true place (statement_from place statements.old.items (map seen lexemes.now))) }
{
    push_statement(alloc, place, lexemes, statements)?;
    Ok(())
}

// Appends the statements of a text from a place on. An invalid token is a fault of the statement
// that it is in.
#[tactic(auto, using(crate::proofs::Lines::line_goes_on, crate::proofs::Lines::line_ends, crate::proofs::Lines::line_refused, crate::proofs::Lines::at_end, crate::proofs::Lines::at_fault))]
fn push_lines<'a, A: Allocator + Copy>(
    alloc: A,
    place: Place,
    text: &'a str,
    statements: &mut Vec<Statement<'a, A>, A>,
) -> Result<(), AsmFault>
    requires { place.line ≤ 1 }
    ensures { GivesStatements (λ _. statements.new.items) result (read_from place statements.old.items [] (lexed 0 text.now)) }
{
    let mut place = place;
    let mut part = Vec::new(alloc);
    let mut at = 0;
    'lexemes: loop {
        match next_lexeme(text, at) {
            Next::Lexeme(lexeme, end) => {
                at = end;
                if ends_statement(lexeme) {
                    let section = push_statement(alloc, place, &part, statements)?;
                    place = next_place(place, lexeme, section);
                    part.clear();
                } else {
                    part.push(lexeme)?;
                }
            }
            Next::End => return push_last(alloc, place, &part, statements),
            Next::Fault => return Err(fault_at(place, FaultKind::Token)),
        }
    }
}

// Appends the change to `.text` at the start of each source after the first, since the previous one
// may end elsewhere.
fn push_begin<'a, A: Allocator>(
    place: Place,
    statements: &mut Vec<Statement<'a, A>, A>,
) -> Result<(), AllocError>
    requires { place ≡ first_place place.source }
    ensures { OnOk result (statements.new.items ≡ begun place.source statements.old.items) }
{
    if place.source == 0 {
        return Ok(());
    }
    statements.push(Statement {
        source: place.source,
        line: place.line,
        body: Body::Directive(Directive::Section(place.section)),
    })?;
    Ok(())
}

// Appends the statements of a source, which starts in `.text`.
fn push_source<'a, A: Allocator + Copy>(
    alloc: A,
    source: usize,
    text: &'a str,
    statements: &mut Vec<Statement<'a, A>, A>,
) -> Result<(), AsmFault>
    ensures { GivesStatements (λ _. statements.new.items) result
        (source_statements source statements.old.items (lexed 0 text.now)) }
{
    let place = first_place(source);
    push_begin(place, statements)?;
    push_lines(alloc, place, text, statements)
}

/// The statements of sources, in order, each source starting in `.text`; or the first statement
/// with a fault among Token, Mnemonic, Operands, Register and Directive, and its lowest such fault.
/// `Memory` when out of memory.
#[tactic(auto, unfolding(asm_statement::specs::Statements::statements_of, asm_statement::specs::Statements::sources_from))]
pub fn statements<'a, A: Allocator + Copy>(
    alloc: A,
    sources: &[&'a str],
) -> Result<Vec<Statement<'a, A>, A>, AsmFault>
    ensures { GivesStatements (λ all. all.items) result (statements_of (texts_of sources.now)) }
{
    let mut statements = Vec::new(alloc);
    'sources: for (source, text) in sources.iter().enumerate() {
        push_source(alloc, source, text, &mut statements)?;
    }
    Ok(statements)
}
