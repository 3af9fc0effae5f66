//! From sources to a program.
ghost use Rattle.std.specs.Prelude.{◌≡◌, IfOk, IfErr};
ghost use Rattle.asm_statement.specs.Answer.{GivesStatements};
ghost use Rattle.asm_statement.specs.Statements.{texts_of};
ghost use Rattle.asm_assemble.specs.Program.{ProgramValue};
ghost use Rattle.asm_assemble.specs.Sources.{assembled_texts};
ghost use Rattle.asm_laws.specs.Programs.{HasFault, HasNoProgram, IsProgramOf};

use asm_assemble::{Program, assemble_statements};
use asm_parse::statements;
use asm_statement::AsmFault;
use std::alloc::Allocator;

/// The program of sources, or the fault that counts.
///
/// All sources are parsed, then all statements are placed, then all operands are evaluated. The
/// first of these phases with a fault counts, in it the first statement with one, and of its faults
/// the lowest number. `Memory` when out of memory.
#[tactic(auto, using(asm_laws::proofs::ProgramsLemmas::is_program, asm_laws::proofs::ProgramsLemmas::no_program, asm_laws::proofs::ProgramsLemmas::unread_has_no_program, asm_laws::proofs::ProgramsLemmas::has_fault, asm_laws::proofs::ProgramsLemmas::unread_has_fault), unfolding(asm_assemble::specs::Sources::assembled_texts))]
pub fn assemble<A: Allocator + Copy>(alloc: A, sources: &[&str]) -> Result<Program<A>, AsmFault>
    ensures value { GivesStatements (λ program. program) result (assembled_texts (texts_of sources.now)) }
    ensures placed { IfOk result (λ program. IsProgramOf (texts_of sources.now) program) }
    ensures only { IfOk result (λ program. (other : ProgramValue)
        → IsProgramOf (texts_of sources.now) other → other ≡ program) }
    ensures none { IfErr result (HasNoProgram (texts_of sources.now)) }
    ensures fault { IfErr result (HasFault (texts_of sources.now)) }
{
    let statements = statements(alloc, sources)?;
    assemble_statements(alloc, statements.as_slice())
}
