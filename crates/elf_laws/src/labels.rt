//! The laws of a text's symbols.
ghost use Rattle.elf_write.specs.File.{file};
ghost use Rattle.elf_laws.specs.Labels.{LabelsAreNames, TextsSymbolsComeBack};

/// Each symbol of each text's program has a name of letters, digits, `_`, `.` and `$` that no digit
/// begins, such as a table of names holds, and an address of 32 bits; the program is within the
/// limit, and its entry is an address.
pub fn labels_are_names()
    ensures { LabelsAreNames }
{}

/// The written file of each text's program, where it has fewer than 2^32 bytes, gives all of the
/// program's symbols, first those that other files do not see.
pub fn symbols_come_back()
    ensures { TextsSymbolsComeBack file }
{}
