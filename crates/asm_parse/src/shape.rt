//! The shapes of operands. A function `.._in_front` returns the item at the front and the lexemes
//! after it.
ghost use Rattle.std.specs.Prelude.{◌≡◌, map, option_map};
ghost use Rattle.asm_lex.specs.Lexemes.{seen};
ghost use Rattle.asm_statement.specs.Shapes as shapes;

use crate::names::register_of;
use asm_lex::Lexeme;
use asm_statement::{FaultKind, Immediate, Name, Target, Upper, Value};
use isa_table::Reg;

/// The name at the front with a comma after it.
#[tactic(auto, unfolding(asm_statement::specs::Shapes::name_in_front))]
pub fn name_in_front<'t, 'a>(lexemes: &'t [Lexeme<'a>]) -> Option<(&'a str, &'t [Lexeme<'a>])>
    ensures { option_map shapes.name_with_rest result ≡ shapes.name_in_front (map seen lexemes.now) }
{
    match lexemes {
        [Lexeme::Name(name), Lexeme::Comma, rest @ ..] => Some((name, rest)),
        _ => None,
    }
}

/// The two names at the front with a comma after each.
#[tactic(auto, unfolding(asm_statement::specs::Shapes::two_names_in_front))]
pub fn two_names_in_front<'t, 'a>(
    lexemes: &'t [Lexeme<'a>],
) -> Option<(&'a str, &'a str, &'t [Lexeme<'a>])>
    ensures { option_map shapes.names_with_rest result ≡ shapes.two_names_in_front (map seen lexemes.now) }
{
    match lexemes {
        [
            Lexeme::Name(first),
            Lexeme::Comma,
            Lexeme::Name(second),
            Lexeme::Comma,
            rest @ ..,
        ] => Some((first, second, rest)),
        _ => None,
    }
}

// The number at the front, with its sign.
#[tactic(auto, unfolding(asm_statement::specs::Shapes::number_in_front))]
fn number_in_front<'t, 'a>(lexemes: &'t [Lexeme<'a>]) -> Option<(i64, &'t [Lexeme<'a>])>
    ensures { option_map shapes.with_rest result ≡ shapes.number_in_front (map seen lexemes.now) }
{
    match lexemes {
        [Lexeme::Minus, Lexeme::Number(n, _), rest @ ..] => Some((-i64::from(*n), rest)),
        [Lexeme::Number(n, _), rest @ ..] => Some((i64::from(*n), rest)),
        _ => None,
    }
}

// The number at the front, negated.
#[tactic(auto, unfolding(asm_statement::specs::Shapes::turned_number_in_front))]
fn turned_number_in_front<'t, 'a>(lexemes: &'t [Lexeme<'a>]) -> Option<(i64, &'t [Lexeme<'a>])>
    ensures { option_map shapes.with_rest result ≡ shapes.turned_number_in_front (map seen lexemes.now) }
{
    match lexemes {
        [Lexeme::Minus, Lexeme::Number(n, _), rest @ ..] => Some((i64::from(*n), rest)),
        [Lexeme::Number(n, _), rest @ ..] => Some((-i64::from(*n), rest)),
        _ => None,
    }
}

// The number added to a symbol's address: plus or minus a number, or nothing.
#[tactic(auto, unfolding(asm_statement::specs::Shapes::offset_in_front))]
fn offset_in_front<'t, 'a>(lexemes: &'t [Lexeme<'a>]) -> Option<(i64, &'t [Lexeme<'a>])>
    ensures { option_map shapes.with_rest result ≡ shapes.offset_in_front (map seen lexemes.now) }
{
    match lexemes {
        [Lexeme::Plus, rest @ ..] => number_in_front(rest),
        [Lexeme::Minus, rest @ ..] => turned_number_in_front(rest),
        _ => Some((0, lexemes)),
    }
}

// A symbol's address and the offset after its name.
fn symbol_and<'t, 'a>(
    name: &'a str,
    behind: Option<(i64, &'t [Lexeme<'a>])>,
) -> Option<(Value<'a>, &'t [Lexeme<'a>])>
    ensures { option_map shapes.with_rest result ≡ shapes.symbol_and name.now (option_map shapes.with_rest behind.entry) }
{
    match behind {
        Some((offset, rest)) => {
            let name = Name::new(name);
            Some((Value::Symbol { name, offset }, rest))
        }
        None => None,
    }
}

// The number at the front, or the symbol plus or minus a number.
#[tactic(auto, unfolding(asm_statement::specs::Shapes::value_in_front))]
fn value_in_front<'t, 'a>(lexemes: &'t [Lexeme<'a>]) -> Option<(Value<'a>, &'t [Lexeme<'a>])>
    ensures { option_map shapes.with_rest result ≡ shapes.value_in_front (map seen lexemes.now) }
{
    match lexemes {
        [Lexeme::Name(name), rest @ ..] => symbol_and(name, offset_in_front(rest)),
        _ => match number_in_front(lexemes) {
            Some((number, rest)) => Some((Value::Number(number), rest)),
            None => None,
        },
    }
}

// The value in parentheses after `%` and this name, at the front.
#[tactic(auto, unfolding(asm_statement::specs::Shapes::part_in_front))]
fn part_in_front<'t, 'a>(
    part: &str,
    lexemes: &'t [Lexeme<'a>],
) -> Option<(Value<'a>, &'t [Lexeme<'a>])>
    ensures { option_map shapes.with_rest result ≡ shapes.part_in_front part.now (map seen lexemes.now) }
{
    match lexemes {
        [
            Lexeme::Percent,
            Lexeme::Name(name),
            Lexeme::Open,
            value @ ..,
        ] if *name == part => {
            match value_in_front(value) {
                Some((value, [Lexeme::Close, rest @ ..])) => Some((value, rest)),
                _ => None,
            }
        }
        _ => None,
    }
}

// The 12-bit immediate at the front.
#[tactic(auto, unfolding(asm_statement::specs::Shapes::immediate_in_front))]
fn immediate_in_front<'t, 'a>(
    lexemes: &'t [Lexeme<'a>],
) -> Option<(Immediate<'a>, &'t [Lexeme<'a>])>
    ensures { option_map shapes.with_rest result ≡ shapes.immediate_in_front (map seen lexemes.now) }
{
    match lexemes {
        [Lexeme::Percent, ..] => match part_in_front("lo", lexemes) {
            Some((value, rest)) => Some((Immediate::Low(value), rest)),
            None => None,
        },
        _ => match number_in_front(lexemes) {
            Some((number, rest)) => Some((Immediate::Number(number), rest)),
            None => None,
        },
    }
}

/// One name, without anything after it.
#[tactic(auto, unfolding(asm_statement::specs::Shapes::name))]
pub fn name<'a>(lexemes: &[Lexeme<'a>]) -> Option<&'a str>
    ensures { option_map (λ name. name.now) result ≡ shapes.name (map seen lexemes.now) }
{
    match lexemes {
        [Lexeme::Name(name)] => Some(name),
        _ => None,
    }
}

/// One number, without anything after it.
#[tactic(auto, unfolding(asm_statement::specs::Shapes::number))]
pub fn number(lexemes: &[Lexeme]) -> Option<i64>
    ensures { result ≡ shapes.number (map seen lexemes.now) }
{
    match number_in_front(lexemes) {
        Some((number, [])) => Some(number),
        _ => None,
    }
}

/// One value, without anything after it.
#[tactic(auto, unfolding(asm_statement::specs::Shapes::value))]
pub fn value<'a>(lexemes: &[Lexeme<'a>]) -> Option<Value<'a>>
    ensures { result ≡ shapes.value (map seen lexemes.now) }
{
    match value_in_front(lexemes) {
        Some((value, [])) => Some(value),
        _ => None,
    }
}

/// One 12-bit immediate, without anything after it.
#[tactic(auto, unfolding(asm_statement::specs::Shapes::immediate))]
pub fn immediate<'a>(lexemes: &[Lexeme<'a>]) -> Option<Immediate<'a>>
    ensures { result ≡ shapes.immediate (map seen lexemes.now) }
{
    match immediate_in_front(lexemes) {
        Some((immediate, [])) => Some(immediate),
        _ => None,
    }
}

/// One 20-bit immediate, without anything after it.
#[tactic(auto, unfolding(asm_statement::specs::Shapes::upper))]
pub fn upper<'a>(lexemes: &[Lexeme<'a>]) -> Option<Upper<'a>>
    ensures { result ≡ shapes.upper (map seen lexemes.now) }
{
    match lexemes {
        [Lexeme::Percent, ..] => match part_in_front("hi", lexemes) {
            Some((value, [])) => Some(Upper::High(value)),
            _ => None,
        },
        _ => match number(lexemes) {
            Some(number) => Some(Upper::Number(number)),
            None => None,
        },
    }
}

/// One target of a branch or a jump, without anything after it.
#[tactic(auto, unfolding(asm_statement::specs::Shapes::target))]
pub fn target<'a>(lexemes: &[Lexeme<'a>]) -> Option<Target<'a>>
    ensures { result ≡ shapes.target (map seen lexemes.now) }
{
    match lexemes {
        [Lexeme::Name(name)] => Some(Target::Symbol(Name::new(name))),
        [Lexeme::Back(digits)] => Some(Target::Back(Name::new(digits))),
        [Lexeme::Ahead(digits)] => Some(Target::Ahead(Name::new(digits))),
        _ => match number(lexemes) {
            Some(address) => Some(Target::Address(address)),
            None => None,
        },
    }
}

// `(rs)`, without anything after it: the register's name.
#[tactic(auto, unfolding(asm_statement::specs::Shapes::base))]
fn base<'a>(lexemes: &[Lexeme<'a>]) -> Option<&'a str>
    ensures { option_map (λ name. name.now) result ≡ shapes.base (map seen lexemes.now) }
{
    match lexemes {
        [Lexeme::Open, Lexeme::Name(base), Lexeme::Close] => Some(base),
        _ => None,
    }
}

// An immediate and the name of the register in parentheses after it.
#[tactic(auto, unfolding(asm_statement::specs::Shapes::with_base))]
fn with_base<'a>(
    immediate: Immediate<'a>,
    lexemes: &[Lexeme<'a>],
) -> Option<(Immediate<'a>, &'a str)>
    ensures { option_map shapes.with_base_name result ≡ shapes.with_base immediate.entry (map seen lexemes.now) }
{
    match base(lexemes) {
        Some(base) => Some((immediate, base)),
        None => None,
    }
}

/// `imm(rs)` or `(rs)`, without anything after it: the immediate and the register's name.
#[tactic(auto, unfolding(asm_statement::specs::Shapes::memory))]
pub fn memory<'a>(lexemes: &[Lexeme<'a>]) -> Option<(Immediate<'a>, &'a str)>
    ensures { option_map shapes.with_base_name result ≡ shapes.memory (map seen lexemes.now) }
{
    match lexemes {
        [Lexeme::Open, ..] => with_base(Immediate::Number(0), lexemes),
        _ => match immediate_in_front(lexemes) {
            Some((immediate, rest)) => with_base(immediate, rest),
            None => None,
        },
    }
}

/// `(rs)` or `0(rs)`, without anything after it: the register's name.
#[tactic(auto, unfolding(asm_statement::specs::Shapes::address))]
pub fn address<'a>(lexemes: &[Lexeme<'a>]) -> Option<&'a str>
    ensures { option_map (λ name. name.now) result ≡ shapes.address (map seen lexemes.now) }
{
    match memory(lexemes) {
        Some((Immediate::Number(0), base)) => Some(base),
        _ => None,
    }
}

/// The register with a name, or the fault `Register`.
#[tactic(auto, unfolding(asm_statement::specs::Shapes::register_operand))]
pub fn register(name: &str) -> Result<Reg, FaultKind>
    ensures { result ≡ shapes.register_operand name.now }
{
    match register_of(name) {
        Some(register) => Ok(register),
        None => Err(FaultKind::Register),
    }
}
