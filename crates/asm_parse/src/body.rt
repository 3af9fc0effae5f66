//! The body of a statement, after its labels.
ghost use Rattle.std.specs.Prelude.{◌≡◌, map, option_map};
ghost use Rattle.asm_lex.specs.Lexemes.{seen};
ghost use Rattle.asm_parse.specs.Refusals.{Tells};
ghost use Rattle.asm_statement.specs.Directives as directives;
ghost use Rattle.asm_statement.specs.Statement.{body_value};
ghost use Rattle.asm_statement.specs.Statements as statements;

use crate::directives::directive;
use crate::heads::head_of;
use crate::operands::register_and_number;
use crate::operations::instruction;
use crate::refusal::Refusal;
use crate::shape::{name, name_in_front, register, value};
use asm_lex::Lexeme;
use asm_statement::{Body, Directive, FaultKind, Head, Name, Pseudo, Section, Value};
use std::alloc::Allocator;

// `li rd, n`
#[tactic(auto, unfolding(asm_statement::specs::Statements::load_number))]
fn load_number<'a>(lexemes: &[Lexeme<'a>]) -> Result<Pseudo<'a>, FaultKind>
    ensures { result ≡ statements.load_number (map seen lexemes.now) }
{
    let (rd, number) = register_and_number(lexemes)?;
    Ok(Pseudo::Li { rd, number })
}

// `la rd, x`
#[tactic(auto, unfolding(asm_statement::specs::Statements::load_address))]
fn load_address<'a>(lexemes: &[Lexeme<'a>]) -> Result<Pseudo<'a>, FaultKind>
    ensures { result ≡ statements.load_address (map seen lexemes.now) }
{
    let (rd, rest) = name_in_front(lexemes).ok_or(FaultKind::Operands)?;
    match value(rest) {
        Some(Value::Symbol { name, offset }) => {
            let rd = register(rd)?;
            Ok(Pseudo::La { rd, name, offset })
        }
        _ => Err(FaultKind::Operands),
    }
}

// `call x`
#[tactic(auto, unfolding(asm_statement::specs::Statements::call))]
fn call<'a>(lexemes: &[Lexeme<'a>]) -> Result<Pseudo<'a>, FaultKind>
    ensures { result ≡ statements.call (map seen lexemes.now) }
{
    let name = Name::new(name(lexemes).ok_or(FaultKind::Operands)?);
    Ok(Pseudo::Call { name })
}

// `tail x`
#[tactic(auto, unfolding(asm_statement::specs::Statements::tail))]
fn tail<'a>(lexemes: &[Lexeme<'a>]) -> Result<Pseudo<'a>, FaultKind>
    ensures { result ≡ statements.tail (map seen lexemes.now) }
{
    let name = Name::new(name(lexemes).ok_or(FaultKind::Operands)?);
    Ok(Pseudo::Tail { name })
}

// A statement with this pseudo-instruction.
fn as_pseudo<'a, A: Allocator>(
    pseudo: Result<Pseudo<'a>, FaultKind>,
) -> Result<Option<Body<'a, A>>, Refusal>
    ensures { Tells (option_map body_value) result (statements.as_pseudo pseudo.entry) }
{
    match pseudo {
        Ok(pseudo) => Ok(Some(Body::Pseudo(pseudo))),
        Err(fault) => Err(Refusal::Wrong(fault)),
    }
}

// The body of a statement that begins with a directive's name; `None` for an ignored one.
fn as_directive<'a, A: Allocator + Copy>(
    alloc: A,
    head: Head,
    lexemes: &[Lexeme<'a>],
) -> Result<Option<Body<'a, A>>, Refusal>
    ensures { Tells (option_map body_value) result (statements.as_directive (directives.directive head (map seen lexemes.now))) }
{
    match directive(alloc, head, lexemes)? {
        Some(directive) => Ok(Some(Body::Directive(directive))),
        None => Ok(None),
    }
}

// The body of a statement that begins with this name; `None` for an ignored directive.
#[tactic(auto, unfolding(asm_statement::specs::Statements::headed))]
fn headed<'a, A: Allocator + Copy>(
    alloc: A,
    head: Head,
    lexemes: &[Lexeme<'a>],
) -> Result<Option<Body<'a, A>>, Refusal>
    ensures { Tells (option_map body_value) result (statements.headed head (map seen lexemes.now)) }
{
    match head {
        Head::Operation(operation) => match instruction(operation, lexemes) {
            Ok(instruction) => Ok(Some(Body::Instruction(instruction))),
            Err(fault) => Err(Refusal::Wrong(fault)),
        },
        Head::Li => as_pseudo(load_number(lexemes)),
        Head::La => as_pseudo(load_address(lexemes)),
        Head::Call => as_pseudo(call(lexemes)),
        Head::Tail => as_pseudo(tail(lexemes)),
        _ => as_directive(alloc, head, lexemes),
    }
}

// The fault of an unknown name: a directive's begins with a dot.
#[tactic(auto, unfolding(asm_statement::specs::Statements::unknown))]
fn unknown(name: &str) -> FaultKind
    ensures { result ≡ statements.unknown name.now }
{
    match name.as_bytes() {
        [b'.', ..] => FaultKind::Directive,
        _ => FaultKind::Mnemonic,
    }
}

// Whether a statement makes instructions or bytes, which `.bss` does not accept.
fn is_bytes<A: Allocator>(body: &Body<A>) -> bool
    ensures { result ≡ statements.is_bytes (body_value body.now) }
{
    match body {
        Body::Instruction(_) | Body::Pseudo(_) => true,
        Body::Directive(
            Directive::Words(_) | Directive::Halves(_) | Directive::Bytes(_) | Directive::Ascii(_),
        ) => true,
        _ => false,
    }
}

fn is_zeros(section: Section) -> bool
    ensures { result ≡ statements.is_zeros section }
{
    matches!(section, Section::Zeros)
}

// The body, if its section allows it: `.bss` has no instructions and no bytes.
fn allowed<'a, A: Allocator>(
    section: Section,
    body: Option<Body<'a, A>>,
) -> Result<Option<Body<'a, A>>, Refusal>
    ensures { Tells (option_map body_value) result (statements.allowed_in_section section (option_map body_value body.entry)) }
{
    match body {
        Some(body) => {
            if is_zeros(section) && is_bytes(&body) {
                return Err(Refusal::Wrong(FaultKind::Directive));
            }
            Ok(Some(body))
        }
        None => Ok(None),
    }
}

// The body of a statement that begins with a name, in a section.
fn named<'a, A: Allocator + Copy>(
    alloc: A,
    section: Section,
    name: &str,
    operands: &[Lexeme<'a>],
) -> Result<Option<Body<'a, A>>, Refusal>
    ensures { Tells (option_map body_value) result (statements.named section name.now (map seen operands.now)) }
{
    match head_of(name) {
        Some(head) => {
            let body = headed(alloc, head, operands)?;
            allowed(section, body)
        }
        None => Err(Refusal::Wrong(unknown(name))),
    }
}

/// The body of a statement after its labels, in a section; `None` for an empty statement and an
/// ignored directive.
#[tactic(auto, unfolding(asm_statement::specs::Statements::body))]
pub fn body<'a, A: Allocator + Copy>(
    alloc: A,
    section: Section,
    lexemes: &[Lexeme<'a>],
) -> Result<Option<Body<'a, A>>, Refusal>
    ensures { Tells (option_map body_value) result (statements.body section (map seen lexemes.now)) }
{
    match lexemes {
        [] => Ok(None),
        [Lexeme::Name(name), operands @ ..] => named(alloc, section, name, operands),
        _ => Err(Refusal::Wrong(FaultKind::Mnemonic)),
    }
}
