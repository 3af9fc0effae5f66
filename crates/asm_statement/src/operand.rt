//! Operands whose values depend on the addresses of labels.
use crate::name::Name;

/// A number, or a symbol's address and a number, both modulo 2^32.
#[derive(Drop)]
pub enum Value<'a> {
    /// A number from -(2^32 - 1) to 2^32 - 1.
    Number(i64),
    /// A symbol, and the number that is added to its address, from -(2^32 - 1) to 2^32 - 1.
    Symbol { name: Name<'a>, offset: i64 },
}

/// The 12-bit immediate of an instruction.
#[derive(Drop)]
pub enum Immediate<'a> {
    /// A number, which must be from -2048 to 2047.
    Number(i64),
    /// `%lo(v)`: the low 12 bits of a value, signed.
    Low(Value<'a>),
}

/// The 20-bit immediate of LUI and AUIPC.
#[derive(Drop)]
pub enum Upper<'a> {
    /// A number, which must be from 0 to 1048575.
    Number(i64),
    /// `%hi(v)`: a value minus `%lo(v)`, divided by 2^12.
    High(Value<'a>),
}

/// The target of a branch or a jump.
#[derive(Drop)]
pub enum Target<'a> {
    /// This address, modulo 2^32.
    Address(i64),
    /// The address of a symbol.
    Symbol(Name<'a>),
    /// `1b`: the last local label with these digits in its source at or before the statement.
    Back(Name<'a>),
    /// `1f`: the next local label with these digits in its source.
    Ahead(Name<'a>),
}
