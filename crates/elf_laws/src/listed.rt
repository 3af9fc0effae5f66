//! The law of the symbols of any file.
ghost use Rattle.std.specs.Prelude.{◌≡◌, ◌↔◌, ℕ, List, Ok, Err};
ghost use Rattle.elf_read.specs.Symbol.{SymbolValue};
ghost use Rattle.elf_read.specs.SymbolTable.{symbols_of};
ghost use Rattle.elf_read.specs.declared.symbol.SymFault.TheVariants as faults;
ghost use Rattle.elf_laws.specs.Listed.{GivesSymbols, HasBadTable, HasNoTable};

/// What is read of a file are the symbols with a name of its first symbol table, in its order,
/// exactly where it has one, all its parts are in the file, and each symbol has a name or an empty
/// one; it is `NoTable` exactly where there is no table, and else `BadTable`.
pub fn symbols_are_the_tables()
    ensures given { (bytes : List ℕ) (symbols : List SymbolValue)
        → (symbols_of bytes ≡ Ok symbols) ↔ GivesSymbols bytes symbols }
    ensures none { (bytes : List ℕ) → (symbols_of bytes ≡ Err faults.NoTable) ↔ HasNoTable bytes }
    ensures bad { (bytes : List ℕ) → (symbols_of bytes ≡ Err faults.BadTable) ↔ HasBadTable bytes }
{}
