//! Directives with their operands.
ghost use Rattle.std.specs.Prelude.{◌≡◌, IfOk, map, option_map};
ghost use Rattle.asm_lex.specs.Lexemes.{seen};
ghost use Rattle.asm_parse.specs.Refusals.{Tells};
ghost use Rattle.asm_statement.specs.Directives as directives;
ghost use Rattle.asm_statement.specs.Shapes as shapes;
ghost use Rattle.asm_statement.specs.Statement.{directive_value};

use crate::operands::without_operands;
use crate::refusal::Refusal;
use crate::shape::{name, number, value};
use crate::texts::push_text;
use asm_lex::Lexeme;
use asm_statement::{Directive, FaultKind, Head, Items, Name, Section, Value};
use std::alloc::{AllocError, Allocator};

fn is_comma(lexeme: Lexeme) -> bool
    ensures { result ≡ directives.is_comma_lexeme (seen lexeme.entry) }
{
    matches!(lexeme, Lexeme::Comma)
}

// The parts of a list between its commas; at least one.
#[tactic(auto, using(crate::proofs::Parts::goes_on, crate::proofs::Parts::comma_here), unfolding(asm_statement::specs::Directives::parts_from))]
fn parts<'t, 'a, A: Allocator>(
    alloc: A,
    lexemes: &'t [Lexeme<'a>],
) -> Result<Vec<&'t [Lexeme<'a>], A>, AllocError>
    ensures { IfOk result (λ parts. directives.parts_seen parts.items ≡ directives.parts (map seen lexemes.now)) }
{
    let mut parts = Vec::new(alloc);
    let mut start = 0;
    'lexemes: for (i, lexeme) in lexemes.iter().enumerate() {
        if !is_comma(*lexeme) {
            continue;
        }
        parts.push(&lexemes[start..i])?;
        start = i + 1;
    }
    parts.push(&lexemes[start..])?;
    Ok(parts)
}

// Values separated by commas.
#[tactic(auto, unfolding(asm_statement::specs::Directives::each))]
fn values<'a, A: Allocator + Copy>(
    alloc: A,
    lexemes: &[Lexeme<'a>],
) -> Result<Vec<Value<'a>, A>, Refusal>
    ensures { Tells (λ values. values.items) result (directives.comma_separated shapes.value (map seen lexemes.now)) }
{
    let parts = parts(alloc, lexemes)?;
    let mut values = Vec::new(alloc);
    'parts: for part in &parts {
        let Some(value) = value(part) else {
            return Err(Refusal::Wrong(FaultKind::Operands));
        };
        values.push(value)?;
    }
    Ok(values)
}

// Numbers separated by commas.
#[tactic(auto, unfolding(asm_statement::specs::Directives::each))]
fn numbers<A: Allocator + Copy>(alloc: A, lexemes: &[Lexeme]) -> Result<Vec<i64, A>, Refusal>
    ensures { Tells (λ numbers. numbers.items) result (directives.comma_separated shapes.number (map seen lexemes.now)) }
{
    let parts = parts(alloc, lexemes)?;
    let mut numbers = Vec::new(alloc);
    'parts: for part in &parts {
        let Some(number) = number(part) else {
            return Err(Refusal::Wrong(FaultKind::Operands));
        };
        numbers.push(number)?;
    }
    Ok(numbers)
}

// Names separated by commas.
#[tactic(auto, unfolding(asm_statement::specs::Directives::each))]
fn names<'a, A: Allocator + Copy>(
    alloc: A,
    lexemes: &[Lexeme<'a>],
) -> Result<Vec<Name<'a>, A>, Refusal>
    ensures { Tells (λ names. names.items) result (directives.comma_separated shapes.name (map seen lexemes.now)) }
{
    let parts = parts(alloc, lexemes)?;
    let mut names = Vec::new(alloc);
    'parts: for part in &parts {
        let Some(name) = name(part) else {
            return Err(Refusal::Wrong(FaultKind::Operands));
        };
        names.push(Name::new(name))?;
    }
    Ok(names)
}

// Appends the bytes of a text.
#[tactic(auto, unfolding(asm_statement::specs::Directives::text))]
fn push_part<A: Allocator>(bytes: &mut Vec<u8, A>, lexemes: &[Lexeme]) -> Result<(), Refusal>
    ensures { Tells (λ _. bytes.new.items) result (directives.text bytes.old.items (map seen lexemes.now)) }
{
    match lexemes {
        [Lexeme::Text(text)] => push_text(bytes, text),
        _ => Err(Refusal::Wrong(FaultKind::Operands)),
    }
}

// Appends a zero byte if `ended` is set.
fn push_end<A: Allocator>(bytes: &mut Vec<u8, A>, ended: bool) -> Result<(), AllocError>
    ensures { IfOk result (λ _. bytes.new.items ≡ directives.with_end ended bytes.old.items) }
{
    if ended {
        bytes.push(0)?;
    }
    Ok(())
}

// The bytes of strings separated by commas, with a zero byte after each if `ended` is set.
#[tactic(auto, unfolding(asm_statement::specs::Directives::texts_from))]
fn texts<A: Allocator + Copy>(
    alloc: A,
    ended: bool,
    lexemes: &[Lexeme],
) -> Result<Vec<u8, A>, Refusal>
    ensures { Tells (λ bytes. bytes.items) result (directives.texts ended (map seen lexemes.now)) }
{
    let parts = parts(alloc, lexemes)?;
    let mut bytes = Vec::new(alloc);
    'parts: for part in &parts {
        push_part(&mut bytes, part)?;
        push_end(&mut bytes, ended)?;
    }
    Ok(bytes)
}

// One number without a sign, without anything after it.
#[tactic(auto, unfolding(asm_statement::specs::Directives::count))]
fn count(lexemes: &[Lexeme]) -> Option<u32>
    ensures { result ≡ directives.count (map seen lexemes.now) }
{
    match lexemes {
        [Lexeme::Number(n, _)] => Some(*n),
        _ => None,
    }
}

// Whether the rest of a section's name is empty, or begins with a dot.
fn is_rest(text: &[u8]) -> bool
    ensures { result ≡ directives.is_rest text.now }
{
    match text {
        [] => true,
        [_] => false,
        [first, ..] => *first == b'.',
    }
}

// Whether a name is that of a section, or begins with it and a dot.
fn is_section(name: &str, section: &str) -> bool
    ensures { result ≡ directives.is_section name.now section.now }
{
    let name = name.as_bytes();
    let (front, rest) = name.split_at(section.len().min(name.len()));
    front == section.as_bytes() && is_rest(rest)
}

// The section with a name in `.section`.
#[tactic(auto, unfolding(asm_statement::specs::Directives::named_section))]
fn named_section(name: &str) -> Option<Section>
    ensures { result ≡ directives.named_section name.now }
{
    if is_section(name, ".text") {
        Some(Section::Text)
    } else if is_section(name, ".data") {
        Some(Section::Data)
    } else if is_section(name, ".rodata") {
        Some(Section::Data)
    } else if is_section(name, ".bss") {
        Some(Section::Zeros)
    } else {
        None
    }
}

// The section of a `.section` directive; operands after its name are ignored.
#[tactic(auto, unfolding(asm_statement::specs::Directives::section))]
fn section(lexemes: &[Lexeme]) -> Option<Section>
    ensures { result ≡ directives.section (map seen lexemes.now) }
{
    match lexemes {
        [Lexeme::Name(name), ..] => named_section(name),
        _ => None,
    }
}

/// The directive with a name at the front of a statement and the operands after it; `None` for an
/// ignored one.
#[tactic(auto, unfolding(asm_statement::specs::Directives::directive))]
pub fn directive<'a, A: Allocator + Copy>(
    alloc: A,
    head: Head,
    lexemes: &[Lexeme<'a>],
) -> Result<Option<Directive<'a, A>>, Refusal>
    ensures { Tells (option_map directive_value) result (directives.directive head (map seen lexemes.now)) }
{
    match head {
        Head::Section(section) => match without_operands(section, lexemes) {
            Ok(section) => Ok(Some(Directive::Section(section))),
            Err(fault) => Err(Refusal::Wrong(fault)),
        },
        Head::NamedSection => match section(lexemes) {
            Some(section) => Ok(Some(Directive::Section(section))),
            None => Err(Refusal::Wrong(FaultKind::Operands)),
        },
        Head::Words => Ok(Some(Directive::Words(Items::new(values(alloc, lexemes)?)))),
        Head::Halves => Ok(Some(Directive::Halves(Items::new(numbers(alloc, lexemes)?)))),
        Head::Bytes => Ok(Some(Directive::Bytes(Items::new(numbers(alloc, lexemes)?)))),
        Head::Ascii { ended } => Ok(Some(Directive::Ascii(Items::new(texts(
            alloc, ended, lexemes,
        )?)))),
        Head::Zero => match count(lexemes) {
            Some(count) => Ok(Some(Directive::Zero(count))),
            None => Err(Refusal::Wrong(FaultKind::Operands)),
        },
        Head::Align => match count(lexemes) {
            Some(count) => Ok(Some(Directive::Align(count))),
            None => Err(Refusal::Wrong(FaultKind::Operands)),
        },
        Head::Global => Ok(Some(Directive::Global(Items::new(names(alloc, lexemes)?)))),
        _ => Ok(None),
    }
}
