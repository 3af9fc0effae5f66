//! The law of the fault that a part of a text has as it is read.
ghost use Rattle.std.specs.Prelude.{◌≡◌, ◌↔◌, true, false, Err};
ghost use Rattle.asm_statement.specs.declared.fault.FaultKind.{FaultKind};
ghost use Rattle.asm_statement.specs.declared.fault.FaultKind.TheVariants as kinds;
ghost use Rattle.asm_statement.specs.declared.statement.Section.{Section};
ghost use Rattle.asm_laws.specs.Reads.{Part, said_by_part};
ghost use Rattle.asm_laws.specs.PartFaults.{IsLowest, PartHas};

/// A part is refused with a fault exactly where that is the lowest of those that it has: no name or
/// an unknown one, operands of another shape, another name in a register's place, bytes in `.bss`.
/// A wrong token is lower than all of these.
pub fn lowest_fault_is_told()
    ensures part { (section : Section) (p : Part) (kind : FaultKind)
        → (said_by_part section p ≡ Err kind) ↔ IsLowest (PartHas false section p) kind }
    ensures token { (section : Section) (p : Part) (kind : FaultKind)
        → (kind ≡ kinds.Token) ↔ IsLowest (PartHas true section p) kind }
{}
