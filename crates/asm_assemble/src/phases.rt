//! Statements to a program, phase by phase.
ghost use Rattle.std.specs.Prelude.{◌≡◌, ◌≤◌, ◌<◌, ◌+◌, ◌-◌, ◌*◌, ◌^◌};
ghost use Rattle.asm_statement.specs.Answer.{GivesStatements};
ghost use Rattle.asm_assemble.specs.Program.{symbol_list, segment_size, IsWithinLimit};
ghost use Rattle.asm_assemble.specs.Cursors.{CursorIsWithin, cursor_after};
ghost use Rattle.asm_assemble.specs.Assembled.{start_at, data_base, zeros_base, first_cursor, is_too_large, heavy_of, program_entry, assembled_symbols, assembled, program_of_placed};

use crate::cursor::{Cursor, cursor_after, round_up};
use crate::operand::address_of;
use crate::placing::{globals_of, last_sized, place};
use crate::program::{PROGRAM_LIMIT, Program, Symbols, TEXT_BASE};
use crate::sections::Sections;
use crate::valuing::value_all;
use asm_statement::{AsmFault, Section, Statement};
use std::alloc::Allocator;

// The start of the first source, given the addresses of data and zeros.
#[tactic(auto, unfolding(crate::specs::Assembled::start_at))]
fn start_at(data_at: u128, zeros_at: u128) -> Cursor
    ensures { result ≡ start_at data_at zeros_at }
{
    Cursor {
        section: Section::Text,
        text_at: u128::from(TEXT_BASE),
        data_at,
        zeros_at,
    }
}

// The address of the data.
#[tactic(auto, unfolding(crate::specs::Assembled::data_base))]
fn data_base<A: Allocator>(statements: &[Statement<'_, A>]) -> u128
    ensures value { result ≡ data_base statements.now }
    ensures small { result ≤ (2 ^ 61 + 2) * 2 ^ 64 }
{
    round_up(text_end(statements), 4096)
}

// The end of the text.
fn text_end<A: Allocator>(statements: &[Statement<'_, A>]) -> u128
    ensures value { result ≡ (cursor_after (start_at 0 0) statements.now).text_at }
    ensures small { result ≤ (2 ^ 61 + 1) * 2 ^ 64 }
{
    cursor_after(start_at(0, 0), statements).text_at
}

// The end of the data, given its address.
fn data_end<A: Allocator>(data_at: u128, statements: &[Statement<'_, A>]) -> u128
    requires { data_at ≤ (2 ^ 61 + 2) * 2 ^ 64 }
    ensures value { result ≡ (cursor_after (start_at data_at 0) statements.now).data_at }
    ensures small { result ≤ (2 ^ 62 + 2) * 2 ^ 64 }
{
    cursor_after(start_at(data_at, 0), statements).data_at
}

// The address of the zeros, given that of the data.
#[tactic(auto, unfolding(crate::specs::Assembled::zeros_base))]
fn zeros_base<A: Allocator>(data_at: u128, statements: &[Statement<'_, A>]) -> u128
    requires { data_at ≤ (2 ^ 61 + 2) * 2 ^ 64 }
    ensures value { result ≡ zeros_base data_at statements.now }
    ensures small { result ≤ (2 ^ 62 + 3) * 2 ^ 64 }
{
    round_up(data_end(data_at, statements), 4)
}

// The bases of the three sections.
#[tactic(auto, using(crate::proofs::Within::start_within), unfolding(crate::specs::Assembled::first_cursor))]
fn first_cursor<A: Allocator>(statements: &[Statement<'_, A>]) -> Cursor
    ensures value { result ≡ first_cursor statements.now }
    ensures small { CursorIsWithin (2 ^ 62 + 3) result }
{
    let data_at = data_base(statements);
    start_at(data_at, zeros_base(data_at, statements))
}

// The size of the segment with this many bytes of data and zeros.
#[tactic(auto, unfolding(crate::specs::Program::segment_size))]
fn segment_size(bytes: u128, zeros: u128) -> u128
    requires bytes_small { bytes < 2 ^ 127 }
    requires zeros_small { zeros < 2 ^ 127 - 8 }
    ensures { result ≡ segment_size bytes zeros }
{
    if zeros == 0 {
        bytes
    } else {
        round_up(bytes, 4) + zeros
    }
}

// The entry of a program with these symbols.
#[tactic(auto, unfolding(crate::specs::Assembled::program_entry))]
fn entry_of<A: Allocator>(symbols: &Symbols<A>) -> u32
    ensures { result ≡ program_entry (symbol_list symbols.now.entries) }
{
    address_of(symbols, "_start").unwrap_or(TEXT_BASE)
}

// Whether text and data segment are over the limit together.
#[tactic(auto, unfolding(crate::specs::Assembled::is_too_large, crate::specs::Cursors::CursorIsWithin))]
fn is_too_large(start: &Cursor, end: &Cursor) -> bool
    requires { CursorIsWithin (2 ^ 62 + 2 ^ 61 + 3) end.now }
    ensures { result ≡ is_too_large start.now end.now }
{
    let text = end.text_at.saturating_sub(u128::from(TEXT_BASE));
    let bytes = end.data_at.saturating_sub(start.data_at);
    let zeros = end.zeros_at.saturating_sub(start.zeros_at);
    text.saturating_add(segment_size(bytes, zeros)) > u128::from(PROGRAM_LIMIT)
}

// The index of the statement that gets the fault `TooLarge`.
#[tactic(auto, unfolding(crate::specs::Assembled::heavy_of))]
fn heavy_of<A: Allocator>(
    start: Cursor,
    end: &Cursor,
    statements: &[Statement<'_, A>],
) -> Option<usize>
    requires start_small { CursorIsWithin (2 ^ 63) start }
    requires end_small { CursorIsWithin (2 ^ 62 + 2 ^ 61 + 3) end.now }
    ensures { result ≡ heavy_of start end.now statements.now }
{
    if is_too_large(&start, end) {
        last_sized(start, statements)
    } else {
        None
    }
}

// The program of these sections.
#[tactic(auto, unfolding(crate::specs::Assembled::program_of_placed))]
fn program_of<A: Allocator>(sections: Sections<A>, zeros: u32, symbols: Symbols<A>) -> Program<A>
    requires { IsWithinLimit sections.text_bytes sections.data_bytes zeros }
    ensures { result ≡ program_of_placed sections zeros (symbol_list symbols.entries) }
{
    let entry = entry_of(&symbols);
    Program {
        text: sections.text,
        bytes: sections.bytes,
        zeros,
        symbols,
        entry,
    }
}

// The symbols of statements between two cursors, or the first fault of placing them.
fn symbols_of<A: Allocator + Copy>(
    alloc: A,
    start: Cursor,
    end: &Cursor,
    statements: &[Statement<'_, A>],
) -> Result<Symbols<A>, AsmFault>
    requires start_small { CursorIsWithin (2 ^ 62 + 2 ^ 60) start }
    requires end_small { CursorIsWithin (2 ^ 62 + 2 ^ 61 + 3) end.now }
    ensures { GivesStatements (λ symbols. symbol_list symbols.entries) result
        (assembled_symbols start end.now statements.now) }
{
    let heavy = heavy_of(start, end, statements);
    let globals = globals_of(alloc, statements)?;
    place(alloc, &globals, start, heavy, statements)
}

/// The program of statements, or the fault that counts. All statements are placed before any
/// operand is evaluated; in each phase the first statement with a fault counts, and of its faults
/// the lowest number. `Memory` when out of memory.
#[tactic(auto, unfolding(crate::specs::Assembled::assembled))]
pub fn assemble_statements<A: Allocator + Copy>(
    alloc: A,
    statements: &[Statement<'_, A>],
) -> Result<Program<A>, AsmFault>
    ensures { GivesStatements (λ program. program) result (assembled statements.now) }
{
    let start = first_cursor(statements);
    let end = cursor_after(start, statements);
    let symbols = symbols_of(alloc, start, &end, statements)?;
    let sections = value_all(alloc, &symbols, start, statements)?;
    // Text and data segment were checked to be within the limit, so the number of zeros is below
    // 2^32.
    let zeros = end.zeros_at.saturating_sub(start.zeros_at) as u32;
    Ok(program_of(sections, zeros, symbols))
}
