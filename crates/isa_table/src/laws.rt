//! Laws of the table, each a function with an empty body whose contract is the law.
ghost use Rattle.std.specs.Prelude.{◌≡◌, ◌↔◌, ◌<◌, ◌^◌, ℕ, Option, Some, None};
ghost use Rattle.std.specs.Prelude.{slice_get, map, IsTrue};
ghost use Rattle.std.specs.List.{list_all};
ghost use Rattle.isa_table.specs.Spells.{SpellsInstr};
ghost use Rattle.isa_table.specs.Decoded.{decoded};
ghost use Rattle.isa_table.specs.Table.{rows, row_of, has_fields_apart};
ghost use Rattle.isa_table.specs.Vectors.{instr_of};
ghost use Rattle.isa_table.specs.declared.mnemonic.Mnemonic.{Mnemonic};
ghost use Rattle.isa_table.specs.declared.instr.Instr.{Instr};
ghost use Rattle.isa_table.specs.declared.vectors.TheConstants.{VECTORS, UNASSIGNED};

/// No word spells two instructions.
pub fn one_instruction()
    ensures { (word : ℕ) (i j : Instr) → SpellsInstr word i → SpellsInstr word j → i ≡ j }
{}

/// A word decodes to the instruction that it spells, and to `None` if it spells none.
pub fn decoded_is_spelled()
    ensures { (word : ℕ) (i : Instr) → word < 2 ^ 32 → (decoded word ≡ Some i) ↔ SpellsInstr word i }
{}

/// Each mnemonic has a row.
pub fn each_mnemonic_has_a_row()
    ensures { (m : Mnemonic) → (k : ℕ) × (slice_get rows k ≡ Some (row_of m)) }
{}

/// In each row the fields lie inside the word and overlap neither one another nor a fixed bit that
/// is set.
pub fn fields_apart()
    ensures { IsTrue (list_all has_fields_apart rows) }
{}

/// By the definitions, the word of each vector is the instruction of its text.
#[tactic(auto, unfolding(crate::specs::Decoded::decoded))]
pub fn vectors_met()
    ensures { map (λ v. decoded v.word) VECTORS ≡ map (λ v. Some (instr_of v)) VECTORS }
{}

/// By the definitions, no word of `UNASSIGNED` is an instruction.
#[tactic(auto, unfolding(crate::specs::Decoded::decoded))]
pub fn unassigned_met()
    ensures { map decoded UNASSIGNED ≡ map (λ w. None) UNASSIGNED }
{}
