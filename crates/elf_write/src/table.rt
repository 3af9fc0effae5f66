//! The symbol table and its names.
ghost use Rattle.std.specs.Prelude.{◌≡◌, ◌+◌, drop, OnOk, IfOk};
ghost use Rattle.asm_assemble.specs.Program.{symbol_list};
ghost use Rattle.elf_write.specs.Table.{with_symbol, with_symbols, no_symbols, symbol_tables, is_bound, bound, section_number};

use crate::field::{Field, write_fields, write_zeros};
use asm_assemble::Symbol;
use asm_statement::Section;
use elf_read::elf::STB_GLOBAL;
use indexmap::IndexMap;
use std::alloc::{AllocError, Allocator};
use std::hash::{BuildHasherDefault, FoldHasher};
use std::marker::Model;

// A program's symbols by their names, in order of definition.
type Symbols<A> = IndexMap<String<A>, Symbol, BuildHasherDefault<FoldHasher>, A>;

/// A symbol table and its names.
#[derive(Drop)]
pub struct Tables<A: Allocator> {
    /// The bytes of the symbol table.
    pub entries: Vec<u8, A>,
    /// The bytes of the names.
    pub names: Vec<u8, A>,
    /// The number of local symbols, the unnamed one included, modulo 2^32 (sh_info).
    pub first_global: u32,
}

impl<A: Allocator> Model for Tables<A> {
    ghost use Rattle.elf_write.specs.Table.{TablesValue};

    ghost Value = { TablesValue };

    ghost view = { λ t. record {
      entries = t.entries.items;
      names = t.names.items;
      first_global = t.first_global;
    } };
}

/// The tables of a program's symbols, local ones first. Fails when out of memory.
#[tactic(auto, unfolding(crate::specs::Table::symbol_tables))]
pub fn symbol_tables<A: Allocator + Copy>(
    alloc: A,
    symbols: &Symbols<A>,
) -> Result<Tables<A>, AllocError>
    ensures { IfOk result (λ t. t ≡ symbol_tables (symbol_list symbols.now.entries)) }
{
    let mut tables = no_symbols(alloc)?;
    add_symbols(&mut tables, symbols, false)?;
    add_symbols(&mut tables, symbols, true)?;
    Ok(tables)
}

// The tables without symbols but the unnamed one.
#[tactic(auto, unfolding(crate::specs::Table::no_symbols))]
fn no_symbols<A: Allocator + Copy>(alloc: A) -> Result<Tables<A>, AllocError>
    ensures { IfOk result (λ t. t ≡ no_symbols) }
{
    let mut entries = Vec::new(alloc);
    write_zeros(&mut entries, 16)?;
    let mut names = Vec::new(alloc);
    names.push(0)?;
    Ok(Tables {
        entries,
        names,
        first_global: 1,
    })
}

// Adds the global symbols, or the local ones.
#[tactic(auto, using(crate::proofs::TableLemmas::none_left))]
fn add_symbols<A: Allocator>(
    tables: &mut Tables<A>,
    symbols: &Symbols<A>,
    global: bool,
) -> Result<(), AllocError>
    ensures { OnOk result (tables.new
        ≡ with_symbols tables.old (bound global (symbol_list symbols.now.entries))) }
{
    'symbols: for i in 0..symbols.len() {
        add_symbol_at(tables, symbols, i, global)?;
    }
    Ok(())
}

// Adds the symbol at an index if its binding is the wanted one.
#[tactic(auto, using(crate::proofs::TableLemmas::none_here, crate::proofs::TableLemmas::left_out, crate::proofs::TableLemmas::added))]
fn add_symbol_at<A: Allocator>(
    tables: &mut Tables<A>,
    symbols: &Symbols<A>,
    index: usize,
    global: bool,
) -> Result<(), AllocError>
    ensures { OnOk result (
        with_symbols tables.new (bound global (drop (index + 1) (symbol_list symbols.now.entries)))
        ≡ with_symbols tables.old (bound global (drop index (symbol_list symbols.now.entries)))) }
{
    let Some((name, symbol)) = symbols.get_index(index) else {
        return Ok(());
    };
    if !is_bound(*symbol, global) {
        return Ok(());
    }
    add_symbol(tables, name, *symbol)?;
    Ok(())
}

// Whether a symbol's binding is the wanted one: global, or local.
fn is_bound(symbol: Symbol, global: bool) -> bool
    ensures { result ≡ is_bound global symbol }
{
    if global {
        symbol.global
    } else {
        !symbol.global
    }
}

// Adds a symbol.
#[tactic(auto, unfolding(crate::specs::Table::with_symbol))]
fn add_symbol<A: Allocator>(
    tables: &mut Tables<A>,
    name: &str,
    symbol: Symbol,
) -> Result<(), AllocError>
    ensures { OnOk result (tables.new ≡ with_symbol tables.old (name.now, symbol)) }
{
    let place = (tables.names.len() % 0x1_0000_0000) as u32;
    let info = if symbol.global { STB_GLOBAL << 4 } else { 0 };
    write_fields(
        &mut tables.entries,
        &[
            Field::Word(place),
            Field::Word(symbol.address),
            Field::Word(0),
            Field::Byte(info),
            Field::Byte(0),
            Field::Half(section_number(symbol.section)),
        ],
    )?;
    tables.names.extend_from_slice(name.as_bytes())?;
    tables.names.push(0)?;
    if !symbol.global {
        tables.first_global = tables.first_global.wrapping_add(1);
    }
    Ok(())
}

// The index of a symbol's section.
fn section_number(section: Section) -> u16
    ensures { result ≡ section_number section }
{
    match section {
        Section::Text => 1,
        Section::Data => 2,
        Section::Zeros => 3,
    }
}
