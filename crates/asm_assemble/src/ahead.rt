//! Forward references, resolved from the last statement to the first.
ghost use Rattle.std.specs.Prelude.{◌≡◌, ◌^◌, ◌∷◌, IfOk, List, Option, ℕ, length, reverse};
ghost use Rattle.asm_assemble.specs.Program.{symbol_list};
ghost use Rattle.asm_assemble.specs.Operands.{found};
ghost use Rattle.asm_assemble.specs.Cursors.{CursorIsWithin};
ghost use Rattle.asm_assemble.specs.Ahead.{addresses, target_ahead, reference, references};

use crate::cursor::{Cursor, count_of};
use crate::locals::{Places, in_source, note};
use crate::table::{empty, look_up};
use asm_statement::{Body, Instruction, Statement, Target};
use std::alloc::{AllocError, Allocator};

// The address of each statement, modulo 2^32.
#[tactic(auto, using(crate::proofs::Within::within_count, crate::proofs::Within::within_next), unfolding(crate::specs::Ahead::addresses))]
fn addresses_of<A: Allocator>(
    alloc: A,
    start: Cursor,
    statements: &[Statement<'_, A>],
) -> Result<Vec<u32, A>, AllocError>
    requires { CursorIsWithin (2 ^ 63) start }
    ensures { IfOk result (λ all. all.items ≡ addresses start statements.now) }
{
    // The number of statements bounds the cursor.
    let _count = count_of(statements);
    let mut all = Vec::new(alloc);
    let mut cursor = start;
    'statements: for statement in statements {
        all.push((cursor.address() % 0x1_0000_0000) as u32)?;
        cursor = cursor.step(statement);
    }
    Ok(all)
}

// The address of a target that is a forward reference. `after` has the next label for each digits.
#[tactic(auto, unfolding(crate::specs::Ahead::target_ahead))]
fn target_ahead<A: Allocator>(after: &Places<A>, source: usize, target: &Target<'_>) -> Option<u32>
    ensures { result ≡ target_ahead (found (symbol_list after.now.entries)) source target.now }
{
    match target {
        Target::Ahead(digits) => in_source(source, look_up(after, digits.as_str())),
        Target::Back(_) | Target::Address(_) | Target::Symbol(_) => None,
    }
}

// The address of a statement's forward reference.
#[tactic(auto, unfolding(crate::specs::Ahead::reference))]
fn reference<A: Allocator>(after: &Places<A>, statement: &Statement<'_, A>) -> Option<u32>
    ensures { result ≡ reference (found (symbol_list after.now.entries)) statement.now.source
        statement.now.body }
{
    match &statement.body {
        Body::Instruction(Instruction::Jal { target, .. } | Instruction::Branch { target, .. }) => {
            target_ahead(after, statement.source, target)
        }
        _ => None,
    }
}

// The addresses of all forward references, the last statement's first. A table has the next label
// for each digits, so that each statement is visited once.
fn references_of<A: Allocator + Copy>(
    alloc: A,
    addresses: &[u32],
    statements: &[Statement<'_, A>],
) -> Result<Vec<Option<u32>, A>, AllocError>
    requires { length addresses.now ≡ length statements.now }
    ensures { IfOk result (λ all. reverse all.items ≡ references addresses.now statements.now) }
{
    let mut after = empty(alloc);
    let mut all = Vec::new(alloc);
    let count = statements.len();
    'statements: for done in 0..count {
        let i = count - 1 - done;
        let statement = &statements[i];
        all.push(reference(&after, statement))?;
        note(alloc, &mut after, u128::from(addresses[i]), statement)?;
    }
    Ok(all)
}

/// The addresses of all forward references, the last statement's first; the first statement is at
/// the cursor. Fails when out of memory.
#[tactic(auto, using(crate::proofs::AheadLemmas::length_addresses))]
pub fn aheads_of<A: Allocator + Copy>(
    alloc: A,
    start: Cursor,
    statements: &[Statement<'_, A>],
) -> Result<Vec<Option<u32>, A>, AllocError>
    requires { CursorIsWithin (2 ^ 63) start }
    ensures { IfOk result (λ all. reverse all.items
        ≡ references (addresses start statements.now) statements.now) }
{
    let addresses = addresses_of(alloc, start, statements)?;
    references_of(alloc, addresses.as_slice(), statements)
}

/// Removes the last of the references, which is the next statement's.
pub fn take_last<A: Allocator>(references: &mut Vec<Option<u32>, A>) -> Option<u32>
    ensures { (first : Option ℕ) (rest : List (Option ℕ)) → reverse references.old.items ≡ first ∷ rest
        → (result ≡ first) × (reverse references.new.items ≡ rest) }
{
    match references.pop() {
        Some(last) => last,
        None => None,
    }
}
