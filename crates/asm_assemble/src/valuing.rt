//! Phase 2: the values of operands.
ghost use Rattle.std.specs.Prelude.{◌≡◌, ◌^◌, ◌<◌, ◌+◌, []};
ghost use Rattle.asm_statement.specs.Answer.{GivesStatements};
ghost use Rattle.asm_assemble.specs.Program.{symbol_list};
ghost use Rattle.asm_assemble.specs.Cursors.{CursorIsWithin};
ghost use Rattle.asm_assemble.specs.Valuing.{valuing, no_bytes};

use crate::ahead::{aheads_of, take_last};
use crate::cursor::{Cursor, count_of};
use crate::locals::{local_of, note};
use crate::placing::at_statement;
use crate::program::Symbols;
use crate::push::PushFault;
use crate::sections::Sections;
use crate::table::empty;
use asm_statement::{AsmFault, Statement};
use std::alloc::Allocator;

/// The bytes of the sections, or the first fault of this phase.
#[tactic(auto, using(crate::proofs::Within::within_far, crate::proofs::Within::within_next))]
pub fn value_all<A: Allocator + Copy>(
    alloc: A,
    symbols: &Symbols<A>,
    start: Cursor,
    statements: &[Statement<'_, A>],
) -> Result<Sections<A>, AsmFault>
    requires { CursorIsWithin (2 ^ 62 + 2 ^ 60) start }
    ensures { GivesStatements (λ sections. sections) result
        (valuing (symbol_list symbols.now.entries) [] no_bytes start statements.now) }
{
    // The number of statements bounds the cursor.
    let _count = count_of(statements);
    let mut sections = Sections::new(alloc);
    let mut aheads = aheads_of(alloc, start, statements)?;
    let mut before = empty(alloc);
    let mut cursor = start;
    'statements: for statement in statements {
        let next = cursor.step(statement);
        let ahead = take_last(&mut aheads);
        let local = local_of(&before, ahead, statement);
        match sections.push(symbols, local, &cursor, statement) {
            Ok(()) => {}
            Err(PushFault::Kind(kind)) => {
                return Err(AsmFault::At(at_statement(statement, kind)));
            }
            Err(PushFault::Memory) => return Err(AsmFault::Memory),
        }
        note(alloc, &mut before, cursor.address(), statement)?;
        cursor = next;
    }
    Ok(sections)
}
