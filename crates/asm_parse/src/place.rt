//! Places of statements.
ghost use Rattle.std.specs.Prelude.{◌≡◌};
ghost use Rattle.asm_statement.specs.Statements as statements;

use asm_statement::{AsmFault, Fault, FaultKind, Place, Section};

/// The start of a source: line 1, in `.text`.
pub fn first_place(source: usize) -> Place
    ensures { result ≡ statements.first_place source }
{
    Place {
        source,
        line: 1,
        section: Section::Text,
    }
}

/// A fault of the statement at this place.
pub fn fault_at(place: Place, kind: FaultKind) -> AsmFault
    ensures { result ≡ AsmFault.At (statements.fault_at place kind) }
{
    AsmFault::At(Fault {
        kind,
        source: place.source,
        line: place.line,
    })
}
