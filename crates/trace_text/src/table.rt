//! The rows of a table.

ghost use Rattle.std.specs.Prelude.{◌≡◌, ◌++◌, ◌∷◌, [], codes, OnOk, option_map, if◌then◌else◌, ◌==◌};
ghost use Rattle.trace_text.specs.Table.{table_cell, columns_from, head_rows, label_column, label_text, names_from, offset_text, table_row, rules_of};

use crate::cell::{push_cell, push_text};
use crate::scalar::push_number;
use elf_read::{Symbol, nearest_label};
use std::alloc::{AllocError, Allocator};
use trace_steps::Explained;

// Appends the names of the columns of so many harts, and that of labels.
#[tactic(auto, using(crate::proofs::TableLemmas::names_done))]
fn push_names<A: Allocator>(out: &mut Vec<u8, A>, harts: u32) -> Result<(), AllocError>
    ensures { OnOk result (out.new.items ≡ out.old.items ++ names_from 0 harts) }
{
    'harts: for hart in 0..harts {
        out.extend_from_slice(b" Hart ")?;
        push_number(out, u64::from(hart))?;
        out.extend_from_slice(b" |")?;
    }
    out.extend_from_slice(b" At |\n")
}

// Appends the rules under the names of so many columns, and under that of labels.
#[tactic(auto, using(crate::proofs::TableLemmas::rules_done))]
fn push_rules<A: Allocator>(out: &mut Vec<u8, A>, harts: u32) -> Result<(), AllocError>
    ensures { OnOk result (out.new.items ≡ out.old.items ++ rules_of harts) }
{
    'harts: for _hart in 0..harts {
        out.extend_from_slice(b"---|")?;
    }
    out.extend_from_slice(b"---|\n")
}

/// Appends the rows above those of the choices, for so many harts.
#[tactic(auto, unfolding(crate::specs::Table::head_rows))]
pub fn push_head_rows<A: Allocator>(out: &mut Vec<u8, A>, harts: u32) -> Result<(), AllocError>
    ensures { OnOk result (out.new.items ≡ out.old.items ++ head_rows harts) }
{
    out.extend_from_slice(b"| Choice |")?;
    push_names(out, harts)?;
    out.extend_from_slice(b"|---|")?;
    push_rules(out, harts)
}

// Appends the column of a hart.
fn push_column<A: Allocator + Copy>(
    alloc: A,
    out: &mut Vec<u8, A>,
    explained: &Explained,
    hart: u32,
) -> Result<(), AllocError>
    ensures { OnOk result (out.new.items ≡ out.old.items
        ++ ((if hart == explained.now.told.choice.hart then table_cell explained.now else 32 ∷ []) ++ codes " |")) }
{
    if hart == explained.told.choice.hart {
        push_cell(alloc, out, explained)?;
    } else {
        out.push(b' ')?;
    }
    out.extend_from_slice(b" |")
}

// Appends the columns of so many harts.
#[tactic(auto, using(crate::proofs::TableLemmas::columns_done))]
fn push_columns<A: Allocator + Copy>(
    alloc: A,
    out: &mut Vec<u8, A>,
    explained: &Explained,
    harts: u32,
) -> Result<(), AllocError>
    ensures { OnOk result (out.new.items ≡ out.old.items ++ columns_from explained.now 0 harts) }
{
    'harts: for hart in 0..harts {
        push_column(alloc, out, explained, hart)?;
    }
    Ok(())
}

// Appends the label of an address, if it has one.
#[tactic(auto, unfolding(crate::specs::Table::label_text))]
fn push_label<A: Allocator, B: Allocator>(
    out: &mut Vec<u8, A>,
    label: Option<&Symbol<B>>,
    address: u32,
) -> Result<(), AllocError>
    ensures { OnOk result (out.new.items
        ≡ out.old.items ++ label_text (option_map (λ s. s.now) label.entry) address) }
{
    out.push(b' ')?;
    let Some(label) = label else {
        return Ok(());
    };
    push_text(out, label.name.as_bytes())?;
    push_offset(out, address.saturating_sub(label.address))
}

// Appends how far an address is behind its label.
fn push_offset<A: Allocator>(out: &mut Vec<u8, A>, distance: u32) -> Result<(), AllocError>
    ensures { OnOk result (out.new.items ≡ out.old.items ++ offset_text distance) }
{
    if distance == 0 {
        return Ok(());
    }
    out.push(b'+')?;
    push_number(out, u64::from(distance))
}

// Appends the column of an instruction's label.
#[tactic(auto, unfolding(crate::specs::Table::label_column))]
fn push_label_column<A: Allocator, B: Allocator>(
    out: &mut Vec<u8, A>,
    symbols: &[Symbol<B>],
    pc: u32,
) -> Result<(), AllocError>
    ensures { OnOk result (out.new.items ≡ out.old.items ++ label_column symbols.now pc) }
{
    push_label(out, nearest_label(symbols, pc), pc)?;
    out.extend_from_slice(b" |\n")
}

/// Appends the row of choice `k` and of what it did, for so many harts; its instruction's label is
/// one of the symbols.
#[tactic(auto, unfolding(crate::specs::Table::table_row))]
pub fn push_row<A: Allocator + Copy, B: Allocator>(
    alloc: A,
    out: &mut Vec<u8, A>,
    symbols: &[Symbol<B>],
    explained: &Explained,
    k: u64,
    harts: u32,
) -> Result<(), AllocError>
    ensures { OnOk result (out.new.items ≡ out.old.items ++ table_row symbols.now explained.now k harts) }
{
    out.extend_from_slice(b"| ")?;
    push_number(out, k)?;
    out.extend_from_slice(b" |")?;
    push_columns(alloc, out, explained, harts)?;
    push_label_column(out, symbols, explained.told.pc)
}
