//! Symbols.
use std::alloc::Allocator;
use std::marker::Model;
use thiserror::Error;

/// The reason why a file gives no symbols.
#[derive(Clone, Copy, Debug, PartialEq, Eq, Error)]
pub enum SymFault {
    /// The file has no sections, or none of them is a symbol table.
    #[error("no symbol table")]
    NoTable,
    /// A size, a range, the link to the names, or a name is invalid.
    #[error("bad symbol table")]
    BadTable,
    /// Out of memory.
    #[error("out of memory")]
    Memory,
}

/// What a symbol names: the type in its st_info.
#[derive(Clone, Copy, PartialEq, Eq)]
pub enum SymbolKind {
    /// Not said (STT_NOTYPE).
    Unsaid,
    /// Data (STT_OBJECT).
    Object,
    /// A function (STT_FUNC).
    Function,
    /// A section (STT_SECTION).
    Section,
    /// A source file (STT_FILE).
    File,
    /// Another type.
    Other,
}

/// Where a symbol is: its st_shndx.
#[derive(Clone, Copy, PartialEq, Eq)]
pub enum SymbolPlace {
    /// Nowhere: its value is absolute (SHN_ABS).
    Absolute,
    /// Anywhere else, as in a section.
    Elsewhere,
}

/// A symbol: its name, which is not empty, its address, what it names and where it is (System V
/// ELF, "Symbol Table").
#[derive(Drop)]
pub struct Symbol<A: Allocator> {
    /// The name (st_name).
    pub name: String<A>,
    /// The address (st_value).
    pub address: u32,
    /// What it names (st_info).
    pub kind: SymbolKind,
    /// Where it is (st_shndx).
    pub place: SymbolPlace,
}

impl<A: Allocator> Model for Symbol<A> {
    ghost use Rattle.std.specs.Prelude.{string_bytes};
    ghost use Rattle.elf_read.specs.Symbol.{SymbolValue};

    ghost Value = { SymbolValue };

    ghost view = { λ s. record {
      name = string_bytes s.name;
      address = s.address;
      kind = s.kind;
      place = s.place;
    } };
}
