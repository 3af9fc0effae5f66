//! Tables by name.
ghost use Rattle.std.specs.Prelude.{◌≡◌, None, Some, OnOk, ◌++◌, ◌∷◌, [], ℕ, List};
ghost use Rattle.asm_assemble.specs.Program.{symbol_list};
ghost use Rattle.asm_assemble.specs.Operands.{found};

use indexmap::IndexMap;
use std::alloc::{AllocError, Allocator};
use std::hash::{BuildHasherDefault, FoldHasher};

/// Values by name, in order of insertion.
pub type Table<V, A> = IndexMap<String<A>, V, BuildHasherDefault<FoldHasher>, A>;

/// An empty table.
#[tactic(auto, unfolding(crate::specs::Program::symbol_list))]
pub fn empty<V, A: Allocator + Copy>(alloc: A) -> Table<V, A>
    ensures { symbol_list result.entries ≡ [] }
{
    IndexMap::new(alloc)
}

/// The value of a name.
pub fn look_up<V: Copy, A: Allocator>(table: &Table<V, A>, name: &str) -> Option<V>
    ensures { result ≡ found (symbol_list table.now.entries) name.now }
{
    table.get(name).copied()
}

/// Adds a new name with its value. Fails when out of memory.
pub fn add<V: Copy, A: Allocator + Copy>(
    alloc: A,
    table: &mut Table<V, A>,
    name: &str,
    value: V,
) -> Result<(), AllocError>
    requires { found (symbol_list table.old.entries) name.now ≡ None }
    ensures { OnOk result (symbol_list table.new.entries
        ≡ symbol_list table.old.entries ++ (name.now, value) ∷ []) }
{
    table.insert(String::from_str(alloc, name)?, value)?;
    Ok(())
}

/// Sets the value of a name; an earlier one is replaced. Fails when out of memory.
pub fn put<V: Copy, A: Allocator + Copy>(
    alloc: A,
    table: &mut Table<V, A>,
    name: &str,
    value: V,
) -> Result<(), AllocError>
    ensures { OnOk result ((q : List ℕ) → found (symbol_list table.new.entries) q
        ≡ found ((name.now, value) ∷ symbol_list table.old.entries) q) }
{
    table.insert(String::from_str(alloc, name)?, value)?;
    Ok(())
}
