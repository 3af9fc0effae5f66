//! Local (numeric) labels.
ghost use Rattle.std.specs.Prelude.{◌≡◌, ◌++◌, OnOk, List, ℕ};
ghost use Rattle.asm_assemble.specs.Program.{symbol_list};
ghost use Rattle.asm_assemble.specs.Operands.{found};
ghost use Rattle.asm_assemble.specs.Locals.{in_source, local_place, back_of, local_label_at};
ghost use Rattle.asm_assemble.specs.Ahead.{target_by, local_by};

use crate::table::{Table, look_up, put};
use asm_statement::{Body, Instruction, Statement, Target};
use std::alloc::{AllocError, Allocator};

/// The place of a local label.
#[derive(Clone, Copy, PartialEq, Eq)]
pub struct Place {
    /// The index of its source, from 0.
    pub source: usize,
    /// Its address, modulo 2^32.
    pub address: u32,
}

/// The last local label for each digits.
pub type Places<A> = Table<Place, A>;

/// The address of a place, if it is in this source.
#[tactic(auto, unfolding(crate::specs::Locals::in_source))]
pub fn in_source(source: usize, place: Option<Place>) -> Option<u32>
    ensures { result ≡ in_source source place }
{
    match place {
        Some(place) if place.source == source => Some(place.address),
        _ => None,
    }
}

// The place of a local label at an address.
fn place_of<A: Allocator>(at: u128, statement: &Statement<'_, A>) -> Place
    ensures { result ≡ local_place statement.now.source at }
{
    Place {
        source: statement.source,
        address: (at % 0x1_0000_0000) as u32,
    }
}

// The address of the last local label with these digits, if it is in this source.
#[tactic(auto, unfolding(crate::specs::Locals::back_of))]
fn back_of<A: Allocator>(before: &Places<A>, source: usize, digits: &str) -> Option<u32>
    ensures { result ≡ back_of (symbol_list before.now.entries) source digits.now }
{
    in_source(source, look_up(before, digits))
}

// The address of a target that is a local reference; `ahead` is the address of a forward one.
#[tactic(auto, unfolding(crate::specs::Ahead::target_by))]
fn local_target<A: Allocator>(
    before: &Places<A>,
    ahead: Option<u32>,
    source: usize,
    target: &Target<'_>,
) -> Option<u32>
    ensures { result ≡ target_by (symbol_list before.now.entries) ahead source target.now }
{
    match target {
        Target::Back(digits) => back_of(before, source, digits.as_str()),
        Target::Ahead(_) => ahead,
        Target::Address(_) | Target::Symbol(_) => None,
    }
}

/// The address of a statement's local reference; `ahead` is the address of a forward one.
#[tactic(auto, unfolding(crate::specs::Ahead::local_by))]
pub fn local_of<A: Allocator>(
    before: &Places<A>,
    ahead: Option<u32>,
    statement: &Statement<'_, A>,
) -> Option<u32>
    ensures { result ≡ local_by (symbol_list before.now.entries) ahead statement.now.source
        statement.now.body }
{
    match &statement.body {
        Body::Instruction(Instruction::Jal { target, .. } | Instruction::Branch { target, .. }) => {
            local_target(before, ahead, statement.source, target)
        }
        _ => None,
    }
}

/// Records the local label of a statement at an address. Fails when out of memory.
#[tactic(auto, unfolding(crate::specs::Locals::local_label_at))]
pub fn note<A: Allocator + Copy>(
    alloc: A,
    before: &mut Places<A>,
    at: u128,
    statement: &Statement<'_, A>,
) -> Result<(), AllocError>
    ensures { OnOk result ((q : List ℕ) → found (symbol_list before.new.entries) q
        ≡ found (local_label_at statement.now.source at statement.now.body
        ++ symbol_list before.old.entries) q) }
{
    match &statement.body {
        Body::LocalLabel(digits) => { put(alloc, before, digits.as_str(), place_of(at, statement)) }
        _ => Ok(()),
    }
}
