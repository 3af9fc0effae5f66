//! The law of the program of texts, and of their fault.
ghost use Rattle.std.specs.Prelude.{◌≡◌, ◌↔◌, ℕ, List, Ok, Err};
ghost use Rattle.asm_statement.specs.declared.fault.Fault.{Fault};
ghost use Rattle.asm_assemble.specs.Program.{ProgramValue};
ghost use Rattle.asm_assemble.specs.Sources.{assembled_texts};
ghost use Rattle.asm_laws.specs.Programs.{IsFaultOf, IsProgramOf};

/// Texts are assembled to a program exactly where it has the statements that they say where one
/// symbol table puts them, and refused with a fault exactly where it is theirs.
pub fn texts_are_assembled()
    ensures program { (texts : List (List ℕ)) (p : ProgramValue) → (assembled_texts texts ≡ Ok p) ↔ IsProgramOf texts p }
    ensures fault { (texts : List (List ℕ)) (fault : Fault) → (assembled_texts texts ≡ Err fault) ↔ IsFaultOf texts fault }
{}
