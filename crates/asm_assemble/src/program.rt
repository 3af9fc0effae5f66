//! Assembled programs.
ghost use Rattle.std.specs.Prelude.{◌≡◌};

use asm_statement::Section;
use indexmap::IndexMap;
use std::alloc::Allocator;
use std::hash::{BuildHasherDefault, FoldHasher};
use std::marker::Model;

/// The address of the first byte of the text.
pub const TEXT_BASE: u32 = 0x0001_0000;

/// The largest size of text and data segment together, in bytes.
pub const PROGRAM_LIMIT: u32 = 0x0100_0000;

/// A symbol of a program.
#[derive(Clone, Copy, PartialEq, Eq)]
pub struct Symbol {
    /// The section in which the symbol is defined.
    pub section: Section,
    /// Its address.
    pub address: u32,
    /// Whether `.globl` declares it.
    pub global: bool,
}

/// The symbols of a program by their names, in order of definition.
pub type Symbols<A> = IndexMap<String<A>, Symbol, BuildHasherDefault<FoldHasher>, A>;

/// An assembled program.
///
/// The text begins at `TEXT_BASE`, the data at the next multiple of 4096 after it, the zeros at the
/// next multiple of 4 after the data. Text and data segment have at most `PROGRAM_LIMIT` bytes
/// together.
#[derive(Drop)]
pub struct Program<A: Allocator> {
    pub(crate) text: Vec<u8, A>,
    pub(crate) bytes: Vec<u8, A>,
    pub(crate) zeros: u32,
    pub(crate) symbols: Symbols<A>,
    pub(crate) entry: u32,
}

impl<A: Allocator> Model for Program<A> {
    ghost use Rattle.asm_assemble.specs.Program.{ProgramValue, IsWithinLimit, symbol_list};

    ghost Value = { ProgramValue };

    ghost view = { λ p. record {
      text = p.text.items;
      bytes = p.bytes.items;
      zeros = p.zeros;
      symbols = symbol_list p.symbols.entries;
      entry = p.entry;
    } };

    ghost invariant = { λ p. IsWithinLimit p.text.items p.bytes.items p.zeros };
}

impl<A: Allocator> Program<A> {
    ghost use Rattle.asm_assemble.specs.Program.{IsWithinLimit, symbol_list};

    /// The bytes of the text.
    pub fn text(&self) -> &[u8]
        ensures value { result.now ≡ self.now.text }
        ensures within { IsWithinLimit self.now.text self.now.bytes self.now.zeros }
    {
        &self.text
    }

    /// The bytes of the data.
    pub fn bytes(&self) -> &[u8]
        ensures value { result.now ≡ self.now.bytes }
        ensures within { IsWithinLimit self.now.text self.now.bytes self.now.zeros }
    {
        &self.bytes
    }

    /// The number of zero bytes after the data.
    pub fn zeros(&self) -> u32
        ensures value { result ≡ self.now.zeros }
        ensures within { IsWithinLimit self.now.text self.now.bytes self.now.zeros }
    {
        self.zeros
    }

    /// The symbols.
    pub fn symbols(&self) -> &Symbols<A>
        ensures { symbol_list result.now.entries ≡ self.now.symbols }
    {
        &self.symbols
    }

    /// The address of the first instruction: that of `_start` if it is defined, else `TEXT_BASE`.
    pub fn entry(&self) -> u32
        ensures { result ≡ self.now.entry }
    {
        self.entry
    }
}
