//! The registers that a command names.
ghost use Rattle.std.specs.Prelude.{◌≡◌};
ghost use Rattle.std.specs.Str.{bytes_eq};
ghost use Rattle.debug_text.specs.Words.{line_words};
ghost use Rattle.debug_text.specs.RegisterNames.{abi_named, register_numbered, register_named, no_registers, with_register, registers_named};

use crate::commands::is_word;
use crate::line::next_word;
use crate::number::decimal_of;
use isa_names::abi_name;
use isa_table::Reg;

/// A register of a hart.
#[derive(Clone, Copy, PartialEq, Eq)]
pub enum Register {
    /// One of x0 to x31.
    General(Reg),
    /// `pc`.
    Pc,
}

// The most registers that a command names: as many as a hart has.
const MOST: usize = 33;

/// Registers in the order in which a command names them: 33 at most.
#[derive(Clone, Copy, PartialEq, Eq)]
pub struct RegisterList {
    // As many as `count` says, and then none.
    pub(crate) registers: [Option<Register>; 33],
    pub(crate) count: usize,
}

// No register.
fn no_registers() -> RegisterList
    ensures { result ≡ no_registers }
{
    RegisterList {
        registers: [None; 33],
        count: 0,
    }
}

// With one register more, or `None` if that is too many.
fn with_register(list: RegisterList, register: Register) -> Option<RegisterList>
    ensures { result ≡ with_register list register }
{
    if list.count >= MOST {
        return None;
    }
    let mut registers = list.registers;
    registers[list.count] = Some(register);
    let count = list.count + 1;
    Some(RegisterList { registers, count })
}

// The register with this name of the ABI.
#[tactic(auto, using(crate::proofs::RegisterNameLemmas::named_more, crate::proofs::RegisterNameLemmas::named_end), unfolding(crate::specs::RegisterNames::abi_named))]
fn abi_named(name: &[u8]) -> Option<Reg>
    ensures { result ≡ abi_named name.now }
{
    'registers: for number in 0..32u8 {
        let register = Reg::new(number);
        if name == abi_name(register).as_bytes() {
            return Some(register);
        }
    }
    None
}

// The register with these digits behind `x`.
fn register_numbered(digits: &[u8]) -> Option<Reg>
    ensures { result ≡ register_numbered digits.now }
{
    match decimal_of(digits) {
        Some(number) if number < 32 => Some(Reg::new(number as u8)),
        _ => None,
    }
}

/// The register with a name: `pc`, a name of the ABI, `fp`, or `x` and a decimal number.
pub fn register_named(name: &[u8]) -> Option<Register>
    ensures { result ≡ register_named name.now }
{
    if is_word(name, "pc") {
        return Some(Register::Pc);
    }
    if is_word(name, "fp") {
        return Some(Register::General(Reg::new(8)));
    }
    match name {
        [b'x', digits @ ..] => Some(Register::General(register_numbered(digits)?)),
        _ => Some(Register::General(abi_named(name)?)),
    }
}

/// The registers whose names are the words of a text, in their order; `None` if a word is no
/// register's name, or there are too many.
#[tactic(auto, using(crate::proofs::RegisterNameLemmas::names_next, crate::proofs::LineLemmas::shorter))]
pub(crate) fn registers_in(text: &[u8]) -> Option<RegisterList>
    ensures { result ≡ registers_named no_registers (line_words text.now) }
{
    let mut list = no_registers();
    let mut rest = text;
    'words: loop {
        let (word, behind) = next_word(rest);
        if word.is_empty() {
            return Some(list);
        }
        list = with_register(list, register_named(word)?)?;
        rest = behind;
    }
}
