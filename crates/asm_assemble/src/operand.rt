//! The values of operands.
ghost use Rattle.std.specs.Prelude.{◌≡◌};
ghost use Rattle.asm_assemble.specs.Program.{symbol_list};
ghost use Rattle.asm_assemble.specs.Operands.{operand_address, defined, symbol_value, valued_operand, immediate_of, upper_of, operand_target};

use crate::number::{as_word, high_part, low_part, number12, number20};
use crate::program::Symbols;
use crate::table::look_up;
use asm_statement::{FaultKind, Immediate, Target, Upper, Value};
use isa_table::{Immediate12, UpperImmediate};
use std::alloc::Allocator;

/// The address of a symbol.
#[tactic(auto, unfolding(crate::specs::Operands::operand_address))]
pub fn address_of<A: Allocator>(symbols: &Symbols<A>, name: &str) -> Option<u32>
    ensures { result ≡ operand_address (symbol_list symbols.now.entries) name.now }
{
    look_up(symbols, name).map(|symbol| symbol.address)
}

// A defined address, or the fault `Undefined`.
#[tactic(auto, unfolding(crate::specs::Operands::defined))]
fn defined(address: Option<u32>) -> Result<u32, FaultKind>
    ensures { result ≡ defined address }
{
    match address {
        Some(at) => Ok(at),
        None => Err(FaultKind::Undefined),
    }
}

/// The value of an operand, modulo 2^32.
#[tactic(auto, unfolding(crate::specs::Operands::valued_operand))]
pub fn value_of<A: Allocator>(symbols: &Symbols<A>, value: &Value<'_>) -> Result<u32, FaultKind>
    ensures { result ≡ valued_operand (symbol_list symbols.now.entries) value.now }
{
    match value {
        Value::Number(number) => Ok(as_word(*number)),
        Value::Symbol { name, offset } => symbol_value(symbols, name.as_str(), *offset),
    }
}

/// The sum of a symbol's address and a number, modulo 2^32.
#[tactic(auto, unfolding(crate::specs::Operands::symbol_value))]
pub fn symbol_value<A: Allocator>(
    symbols: &Symbols<A>,
    name: &str,
    offset: i64,
) -> Result<u32, FaultKind>
    ensures { result ≡ symbol_value (symbol_list symbols.now.entries) name.now offset }
{
    let at = defined(address_of(symbols, name))?;
    Ok(at.wrapping_add(as_word(offset)))
}

/// The value of a 12-bit immediate.
#[tactic(auto, unfolding(crate::specs::Operands::immediate_of))]
pub fn immediate_of<A: Allocator>(
    symbols: &Symbols<A>,
    imm: &Immediate<'_>,
) -> Result<Immediate12, FaultKind>
    ensures { result ≡ immediate_of (symbol_list symbols.now.entries) imm.now }
{
    match imm {
        Immediate::Number(number) => number12(*number),
        Immediate::Low(value) => Ok(low_part(value_of(symbols, value)?)),
    }
}

/// The value of a 20-bit immediate.
#[tactic(auto, unfolding(crate::specs::Operands::upper_of))]
pub fn upper_of<A: Allocator>(
    symbols: &Symbols<A>,
    imm: &Upper<'_>,
) -> Result<UpperImmediate, FaultKind>
    ensures { result ≡ upper_of (symbol_list symbols.now.entries) imm.now }
{
    match imm {
        Upper::Number(number) => number20(*number),
        Upper::High(value) => Ok(high_part(value_of(symbols, value)?)),
    }
}

/// The address of a target; `local` is the address of the statement's local reference.
#[tactic(auto, unfolding(crate::specs::Operands::operand_target))]
pub fn target_of<A: Allocator>(
    symbols: &Symbols<A>,
    local: Option<u32>,
    target: &Target<'_>,
) -> Result<u32, FaultKind>
    ensures { result ≡ operand_target (symbol_list symbols.now.entries) local target.now }
{
    match target {
        Target::Address(number) => Ok(as_word(*number)),
        Target::Symbol(name) => defined(address_of(symbols, name.as_str())),
        Target::Back(_) | Target::Ahead(_) => defined(local),
    }
}
