//! Laws of assembled programs.
ghost use Rattle.asm_assemble.specs.Placed.{AssembledIsPlaced, PlacedIsAssembled, OneProgram, FaultyIsUnplaced, PartsMake, PartsReach};

/// In an assembled program one symbol table puts each statement at its section's base plus the
/// sizes before it, and each operand has the value that this table gives.
pub fn assembled_is_placed()
    ensures { AssembledIsPlaced }
{}

/// A program whose statements are placed in this way is the one that is assembled.
pub fn placed_is_assembled()
    ensures { PlacedIsAssembled }
{}

/// Statements are placed in this way in at most one program.
pub fn one_program()
    ensures { OneProgram }
{}

/// If the assembler returns a fault, the statements are placed in this way in no program.
pub fn faulty_is_unplaced()
    ensures { FaultyIsUnplaced }
{}

/// The parts `%hi` and `%lo` of a word add up to the word, and those of a distance lead to the
/// target, modulo 2^32.
pub fn high_and_low_parts()
    ensures make { PartsMake }
    ensures reach { PartsReach }
{}
