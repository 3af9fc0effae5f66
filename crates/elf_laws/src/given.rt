//! The law of written files' symbols.
ghost use Rattle.elf_write.specs.File.{file};
ghost use Rattle.elf_laws.specs.Given.{SymbolsComeBack};

/// The symbols that are read of a written file are the program's, first those that other files do
/// not see, where the file has fewer than 2^32 bytes, so that no place is taken modulo 2^32.
pub fn symbols_of_written()
    ensures { SymbolsComeBack file }
{}
