//! The law of the fault that statements have.
ghost use Rattle.std.specs.Prelude.{◌≡◌, ◌↔◌, List, Err};
ghost use Rattle.asm_statement.specs.Statement.{StatementValue};
ghost use Rattle.asm_statement.specs.declared.fault.Fault.{Fault};
ghost use Rattle.asm_assemble.specs.Assembled.{assembled};
ghost use Rattle.asm_laws.specs.Faults.{HasFirstFault};

/// Statements are refused with a fault exactly where it is that of the first statement with one, in
/// placing or, where that has none, in the values of operands, and the lowest there.
pub fn first_phase_decides()
    ensures { (ss : List StatementValue) (fault : Fault) → (assembled ss ≡ Err fault) ↔ HasFirstFault ss fault }
{}
