//! Phase 1: the places of statements.
ghost use Rattle.std.specs.Prelude.{◌≡◌, ◌^◌, ◌<◌, ◌+◌, OnOk, IfOk, ◌++◌, ◌∷◌, [], List, ℕ, map};
ghost use Rattle.asm_statement.specs.Answer.{GivesStatements};
ghost use Rattle.asm_assemble.specs.Program.{symbol_list};
ghost use Rattle.asm_assemble.specs.Cursors.{CursorIsWithin, cursor_address};
ghost use Rattle.asm_assemble.specs.Placing.{at_statement, if_sized, last_sized, own_fault, place_fault, with_names, with_globals, globals_from, placed_symbols_at, is_at, placing, IsNew};

use crate::cursor::{Cursor, count_of, size};
use crate::program::{Symbol, Symbols};
use crate::table::{Table, add, empty, look_up};
use asm_statement::{AsmFault, Body, Directive, Fault, FaultKind, Name, Statement};
use std::alloc::{AllocError, Allocator};

/// A set of names.
pub type Names<A> = Table<(), A>;

/// A fault of a statement.
pub fn at_statement<A: Allocator>(statement: &Statement<'_, A>, kind: FaultKind) -> Fault
    ensures { result ≡ at_statement statement.now kind }
{
    Fault {
        kind,
        source: statement.source,
        line: statement.line,
    }
}

// The index of a statement, if its size at an address is above 0.
fn if_sized<A: Allocator>(i: usize, at: u128, statement: &Statement<'_, A>) -> Option<usize>
    requires { at < 2 ^ 127 + 2 ^ 126 }
    ensures { result ≡ if_sized i at statement.now.body }
{
    if size(at, statement) > 0 {
        Some(i)
    } else {
        None
    }
}

/// The index of the last statement of size above 0.
pub fn last_sized<A: Allocator>(start: Cursor, statements: &[Statement<'_, A>]) -> Option<usize>
    requires { CursorIsWithin (2 ^ 63) start }
    ensures { result ≡ last_sized 0 start statements.now }
{
    // The number of statements bounds the cursor.
    let _count = count_of(statements);
    let mut cursor = start;
    let mut last = None;
    'statements: for (i, statement) in statements.iter().enumerate() {
        last = if_sized(i, cursor.address(), statement).or(last);
        cursor = cursor.step(statement);
    }
    last
}

// The fault of a statement at an address, apart from the size of all.
#[tactic(auto, unfolding(crate::specs::Placing::own_fault))]
fn own_fault<A: Allocator>(
    symbols: &Symbols<A>,
    at: u128,
    statement: &Statement<'_, A>,
) -> Option<FaultKind>
    ensures { result ≡ own_fault (symbol_list symbols.now.entries) at statement.now.body }
{
    match &statement.body {
        Body::Label(name) if look_up(symbols, name.as_str()).is_some() => Some(FaultKind::Twice),
        Body::Instruction(_) | Body::Pseudo(_) if at % 4 != 0 => Some(FaultKind::Align),
        Body::Directive(Directive::Align(n)) if *n > 12 => Some(FaultKind::Align),
        _ => None,
    }
}

// The lowest fault of a statement when it is placed; `heavy` says that it gets `TooLarge`.
#[tactic(auto, unfolding(crate::specs::Placing::place_fault))]
fn place_fault<A: Allocator>(
    symbols: &Symbols<A>,
    heavy: bool,
    at: u128,
    statement: &Statement<'_, A>,
) -> Option<FaultKind>
    ensures { result ≡ place_fault (symbol_list symbols.now.entries) heavy at statement.now.body }
{
    match own_fault(symbols, at, statement) {
        Some(kind) => Some(kind),
        None if heavy => Some(FaultKind::TooLarge),
        None => None,
    }
}

// Adds the names that are not in the set.
#[tactic(auto, unfolding(crate::specs::Placing::with_names))]
fn add_names<A: Allocator + Copy>(
    alloc: A,
    table: &mut Names<A>,
    names: &[Name<'_>],
) -> Result<(), AllocError>
    ensures { OnOk result (symbol_list table.new.entries
        ≡ with_names (symbol_list table.old.entries) names.now) }
{
    'names: for name in names {
        if look_up(table, name.as_str()).is_some() {
            continue;
        }
        add(alloc, table, name.as_str(), ())?;
    }
    Ok(())
}

// Adds the names that a statement makes global.
#[tactic(auto, unfolding(crate::specs::Placing::with_globals))]
fn add_globals<A: Allocator + Copy>(
    alloc: A,
    table: &mut Names<A>,
    statement: &Statement<'_, A>,
) -> Result<(), AllocError>
    ensures { OnOk result (symbol_list table.new.entries
        ≡ with_globals (symbol_list table.old.entries) statement.now.body) }
{
    match &statement.body {
        Body::Directive(Directive::Global(names)) => add_names(alloc, table, names.as_slice()),
        _ => Ok(()),
    }
}

/// The names that statements make global. Fails when out of memory.
#[tactic(auto, unfolding(crate::specs::Placing::globals_from))]
pub fn globals_of<A: Allocator + Copy>(
    alloc: A,
    statements: &[Statement<'_, A>],
) -> Result<Names<A>, AllocError>
    ensures { IfOk result (λ names. symbol_list names.entries ≡ globals_from [] statements.now) }
{
    let mut names = empty(alloc);
    'statements: for statement in statements {
        add_globals(alloc, &mut names, statement)?;
    }
    Ok(names)
}

// Adds the symbol that a statement defines.
#[tactic(auto, unfolding(crate::specs::Placing::placed_symbols_at, crate::specs::Placing::IsNew))]
fn define<A: Allocator + Copy>(
    alloc: A,
    globals: &Names<A>,
    symbols: &mut Symbols<A>,
    cursor: &Cursor,
    statement: &Statement<'_, A>,
) -> Result<(), AllocError>
    requires { IsNew (symbol_list symbols.old.entries) statement.now.body }
    ensures { OnOk result (symbol_list symbols.new.entries ≡ symbol_list symbols.old.entries
        ++ placed_symbols_at (symbol_list globals.now.entries) cursor.now.section (cursor_address cursor.now)
        statement.now.body) }
{
    let Body::Label(name) = &statement.body else {
        return Ok(());
    };
    let symbol = Symbol {
        section: cursor.section,
        address: (cursor.address() % 0x1_0000_0000) as u32,
        global: look_up(globals, name.as_str()).is_some(),
    };
    add(alloc, symbols, name.as_str(), symbol)
}

// Whether an index is this one.
fn is_at(heavy: Option<usize>, i: usize) -> bool
    ensures { result ≡ is_at heavy i }
{
    match heavy {
        Some(j) => i == j,
        None => false,
    }
}

/// All symbols in order of definition, or the first fault of this phase.
pub fn place<A: Allocator + Copy>(
    alloc: A,
    globals: &Names<A>,
    start: Cursor,
    heavy: Option<usize>,
    statements: &[Statement<'_, A>],
) -> Result<Symbols<A>, AsmFault>
    requires { CursorIsWithin (2 ^ 63) start }
    ensures { GivesStatements (λ symbols. symbol_list symbols.entries) result
        (placing (symbol_list globals.now.entries) [] heavy 0 start statements.now) }
{
    let mut symbols = empty(alloc);
    // The number of statements bounds the cursor.
    let _count = count_of(statements);
    let mut cursor = start;
    'statements: for (i, statement) in statements.iter().enumerate() {
        let at = cursor.address();
        match place_fault(&symbols, is_at(heavy, i), at, statement) {
            Some(kind) => return Err(AsmFault::At(at_statement(statement, kind))),
            None => {}
        }
        define(alloc, globals, &mut symbols, &cursor, statement)?;
        cursor = cursor.step(statement);
    }
    Ok(symbols)
}
