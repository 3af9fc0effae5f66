//! Operands that more than one instruction has: first their shapes, then their registers.
ghost use Rattle.std.specs.Prelude.{◌≡◌, map};
ghost use Rattle.asm_lex.specs.Lexemes.{seen};
ghost use Rattle.asm_statement.specs.Operations as operations;
ghost use Rattle.asm_statement.specs.Shapes as shapes;

use crate::shape::{
    address, immediate, memory, name, name_in_front, number, register, target, two_names_in_front,
    upper,
};
use asm_lex::Lexeme;
use asm_statement::{FaultKind, Immediate, Target, Upper};
use isa_table::Reg;

// The registers with two names.
#[tactic(auto, unfolding(asm_statement::specs::Operations::two_registers))]
fn two_registers(first: &str, second: &str) -> Result<(Reg, Reg), FaultKind>
    ensures { result ≡ operations.two_registers first.now second.now }
{
    let first = register(first)?;
    let second = register(second)?;
    Ok((first, second))
}

// The registers with three names.
#[tactic(auto, unfolding(asm_statement::specs::Operations::three_registers))]
fn three_registers(first: &str, second: &str, third: &str) -> Result<(Reg, Reg, Reg), FaultKind>
    ensures { result ≡ operations.three_registers first.now second.now third.now }
{
    let (first, second) = two_registers(first, second)?;
    let third = register(third)?;
    Ok((first, second, third))
}

/// `r, s, imm`
#[tactic(auto, unfolding(asm_statement::specs::Operations::registers_and))]
pub fn registers_and_immediate<'a>(
    lexemes: &[Lexeme<'a>],
) -> Result<(Reg, Reg, Immediate<'a>), FaultKind>
    ensures { result ≡ operations.registers_and shapes.immediate (map seen lexemes.now) }
{
    let (first, second, rest) = two_names_in_front(lexemes).ok_or(FaultKind::Operands)?;
    let immediate = immediate(rest).ok_or(FaultKind::Operands)?;
    let (first, second) = two_registers(first, second)?;
    Ok((first, second, immediate))
}

/// `r, s, n`
#[tactic(auto, unfolding(asm_statement::specs::Operations::registers_and))]
pub fn registers_and_number(lexemes: &[Lexeme]) -> Result<(Reg, Reg, i64), FaultKind>
    ensures { result ≡ operations.registers_and shapes.number (map seen lexemes.now) }
{
    let (first, second, rest) = two_names_in_front(lexemes).ok_or(FaultKind::Operands)?;
    let number = number(rest).ok_or(FaultKind::Operands)?;
    let (first, second) = two_registers(first, second)?;
    Ok((first, second, number))
}

/// `r, s, target`
#[tactic(auto, unfolding(asm_statement::specs::Operations::registers_and))]
pub fn registers_and_target<'a>(lexemes: &[Lexeme<'a>]) -> Result<(Reg, Reg, Target<'a>), FaultKind>
    ensures { result ≡ operations.registers_and shapes.target (map seen lexemes.now) }
{
    let (first, second, rest) = two_names_in_front(lexemes).ok_or(FaultKind::Operands)?;
    let target = target(rest).ok_or(FaultKind::Operands)?;
    let (first, second) = two_registers(first, second)?;
    Ok((first, second, target))
}

/// `r, imm(s)`
#[tactic(auto, unfolding(asm_statement::specs::Operations::register_and_memory))]
pub fn register_and_memory<'a>(
    lexemes: &[Lexeme<'a>],
) -> Result<(Reg, Reg, Immediate<'a>), FaultKind>
    ensures { result ≡ operations.register_and_memory (map seen lexemes.now) }
{
    let (name, rest) = name_in_front(lexemes).ok_or(FaultKind::Operands)?;
    let (immediate, base) = memory(rest).ok_or(FaultKind::Operands)?;
    let (register, base) = two_registers(name, base)?;
    Ok((register, base, immediate))
}

/// `r, n`
#[tactic(auto, unfolding(asm_statement::specs::Operations::register_and))]
pub fn register_and_number(lexemes: &[Lexeme]) -> Result<(Reg, i64), FaultKind>
    ensures { result ≡ operations.register_and shapes.number (map seen lexemes.now) }
{
    let (name, rest) = name_in_front(lexemes).ok_or(FaultKind::Operands)?;
    let number = number(rest).ok_or(FaultKind::Operands)?;
    Ok((register(name)?, number))
}

/// `r, target`
#[tactic(auto, unfolding(asm_statement::specs::Operations::register_and))]
pub fn register_and_target<'a>(lexemes: &[Lexeme<'a>]) -> Result<(Reg, Target<'a>), FaultKind>
    ensures { result ≡ operations.register_and shapes.target (map seen lexemes.now) }
{
    let (name, rest) = name_in_front(lexemes).ok_or(FaultKind::Operands)?;
    let target = target(rest).ok_or(FaultKind::Operands)?;
    Ok((register(name)?, target))
}

/// `r, imm`, of LUI and AUIPC
#[tactic(auto, unfolding(asm_statement::specs::Operations::register_and))]
pub fn register_and_upper<'a>(lexemes: &[Lexeme<'a>]) -> Result<(Reg, Upper<'a>), FaultKind>
    ensures { result ≡ operations.register_and shapes.upper (map seen lexemes.now) }
{
    let (name, rest) = name_in_front(lexemes).ok_or(FaultKind::Operands)?;
    let upper = upper(rest).ok_or(FaultKind::Operands)?;
    Ok((register(name)?, upper))
}

/// `r, s`
#[tactic(auto, unfolding(asm_statement::specs::Operations::two_with_last))]
pub fn register_and_register(lexemes: &[Lexeme]) -> Result<(Reg, Reg), FaultKind>
    ensures { result ≡ operations.two_with_last shapes.name (map seen lexemes.now) }
{
    let (first, rest) = name_in_front(lexemes).ok_or(FaultKind::Operands)?;
    two_registers(first, name(rest).ok_or(FaultKind::Operands)?)
}

/// `r, (s)`
#[tactic(auto, unfolding(asm_statement::specs::Operations::two_with_last))]
pub fn register_and_address(lexemes: &[Lexeme]) -> Result<(Reg, Reg), FaultKind>
    ensures { result ≡ operations.two_with_last shapes.address (map seen lexemes.now) }
{
    let (first, rest) = name_in_front(lexemes).ok_or(FaultKind::Operands)?;
    two_registers(first, address(rest).ok_or(FaultKind::Operands)?)
}

/// `r, s, t`
#[tactic(auto, unfolding(asm_statement::specs::Operations::three_with_last))]
pub fn registers_and_register(lexemes: &[Lexeme]) -> Result<(Reg, Reg, Reg), FaultKind>
    ensures { result ≡ operations.three_with_last shapes.name (map seen lexemes.now) }
{
    let (first, second, rest) = two_names_in_front(lexemes).ok_or(FaultKind::Operands)?;
    three_registers(first, second, name(rest).ok_or(FaultKind::Operands)?)
}

/// `r, s, (t)`
#[tactic(auto, unfolding(asm_statement::specs::Operations::three_with_last))]
pub fn registers_and_address(lexemes: &[Lexeme]) -> Result<(Reg, Reg, Reg), FaultKind>
    ensures { result ≡ operations.three_with_last shapes.address (map seen lexemes.now) }
{
    let (first, second, rest) = two_names_in_front(lexemes).ok_or(FaultKind::Operands)?;
    three_registers(first, second, address(rest).ok_or(FaultKind::Operands)?)
}

/// What has no operands, if none follow.
#[tactic(auto, unfolding(asm_statement::specs::Operations::without_operands))]
pub fn without_operands<T: Drop>(item: T, lexemes: &[Lexeme]) -> Result<T, FaultKind>
    ensures { result ≡ operations.without_operands item (map seen lexemes.now) }
{
    match lexemes {
        [] => Ok(item),
        _ => Err(FaultKind::Operands),
    }
}
