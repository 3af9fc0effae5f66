//! What was read of sources is what they say.
ghost use Rattle.std.specs.Prelude.{◌≡◌, ◌↔◌, ℕ, List, Ok, Err};
ghost use Rattle.asm_statement.specs.Statement.{StatementValue};
ghost use Rattle.asm_statement.specs.Statements.{statements_of};
ghost use Rattle.asm_statement.specs.declared.fault.Fault.{Fault};
ghost use Rattle.asm_laws.specs.Reads.{IsDecided, TextsFail, TextsSay};

/// Sources are read as statements exactly where they say these.
pub fn read_is_said()
    ensures { (texts : List (List ℕ)) (ss : List StatementValue) → (statements_of texts ≡ Ok ss) ↔ TextsSay 0 texts ss }
{}

/// Sources are refused with a fault exactly where it is that of the first part that is wrong.
pub fn fault_is_the_first()
    ensures { (texts : List (List ℕ)) (fault : Fault) → (statements_of texts ≡ Err fault) ↔ TextsFail 0 texts fault }
{}

/// Sources say statements in one way, or have one fault, and never both.
pub fn texts_are_decided()
    ensures { (texts : List (List ℕ)) → IsDecided texts }
{}
