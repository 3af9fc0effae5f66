//! The place of the next statement in each section.
ghost use Rattle.std.specs.Prelude.{◌≡◌, ℕ, ◌+◌, ◌*◌, ◌^◌, ◌<◌, ◌≤◌, length};

use crate::instruction::pseudo_size;
use asm_statement::{Body, Directive, Section, Statement};
use std::alloc::Allocator;

/// The next address in each section, and the section of the next statement.
#[derive(Clone, Copy, PartialEq, Eq)]
pub struct Cursor {
    pub section: Section,
    pub text_at: u128,
    pub data_at: u128,
    pub zeros_at: u128,
}

ghost use Rattle.asm_assemble.specs.Program.{round_up};
ghost use Rattle.asm_assemble.specs.Cursors.{size, align_size, directive_size, cursor_address, section_of, stepped_cursor, cursor_after, CursorIsWithin};
ghost use Rattle.asm_statement.specs.Statement.{directive_value};

/// The least multiple of the unit that is at least an address.
#[tactic(auto, unfolding(crate::specs::Program::round_up))]
pub fn round_up(at: u128, unit: u128) -> u128
    requires some { 0 < unit }
    requires small { at + unit < 2 ^ 128 }
    ensures value { result ≡ round_up at unit }
    ensures near { result < at + unit }
    ensures above { at ≤ result }
{
    (at + (unit - 1)) / unit * unit
}

/// The number of bytes up to a multiple of 2^n; 0 if n is above 12.
#[tactic(auto, unfolding(crate::specs::Cursors::align_size))]
pub fn align_size(at: u128, n: u32) -> u128
    requires { at < 2 ^ 127 + 2 ^ 126 }
    ensures value { result ≡ align_size at n }
    ensures small { result < 2 ^ 12 }
{
    if n > 12 {
        return 0;
    }
    round_up(at, 1 << n) - at
}

/// The number of bytes of a directive at an address.
#[tactic(auto, unfolding(crate::specs::Cursors::directive_size))]
#[inline(always)]
pub fn directive_size<A: Allocator>(at: u128, directive: &Directive<'_, A>) -> u128
    requires { at < 2 ^ 127 + 2 ^ 126 }
    ensures value { result ≡ directive_size at (directive_value directive.now) }
    ensures small { result ≤ 2 ^ 64 }
{
    match directive {
        Directive::Section(_) | Directive::Global(_) => 0,
        Directive::Align(n) => align_size(at, *n),
        Directive::Zero(count) => u128::from(*count),
        Directive::Words(values) => 4 * (values.as_slice().len() as u128),
        Directive::Halves(numbers) => 2 * (numbers.as_slice().len() as u128),
        Directive::Bytes(numbers) => numbers.as_slice().len() as u128,
        Directive::Ascii(bytes) => bytes.as_slice().len() as u128,
    }
}

/// The number of bytes of a statement at an address.
#[tactic(auto, unfolding(crate::specs::Cursors::size))]
#[inline(always)]
pub fn size<A: Allocator>(at: u128, statement: &Statement<'_, A>) -> u128
    requires { at < 2 ^ 127 + 2 ^ 126 }
    ensures value { result ≡ size at statement.now.body }
    ensures small { result ≤ 2 ^ 64 }
{
    match &statement.body {
        Body::Label(_) | Body::LocalLabel(_) => 0,
        Body::Instruction(_) => 4,
        Body::Pseudo(pseudo) => pseudo_size(pseudo),
        Body::Directive(directive) => directive_size(at, directive),
    }
}

// The section to which a statement changes.
#[tactic(auto, unfolding(crate::specs::Cursors::section_of))]
#[inline(always)]
fn section_of<A: Allocator>(statement: &Statement<'_, A>) -> Option<Section>
    ensures { result ≡ section_of statement.now.body }
{
    match &statement.body {
        Body::Directive(Directive::Section(section)) => Some(*section),
        _ => None,
    }
}

impl Cursor {
    /// The address of the next statement.
    #[tactic(auto, unfolding(crate::specs::Cursors::cursor_address, crate::specs::Cursors::CursorIsWithin))]
    #[inline(always)]
    pub fn address(&self) -> u128
        ensures value { result ≡ cursor_address self.now }
        ensures small { CursorIsWithin (2 ^ 63 + 2 ^ 61) self.now → result < 2 ^ 127 + 2 ^ 126 }
    {
        match self.section {
            Section::Text => self.text_at,
            Section::Data => self.data_at,
            Section::Zeros => self.zeros_at,
        }
    }

    /// The cursor after a statement.
    #[tactic(auto, unfolding(crate::specs::Cursors::stepped_cursor, crate::specs::Cursors::CursorIsWithin))]
    #[inline(always)]
    pub fn step<A: Allocator>(self, statement: &Statement<'_, A>) -> Cursor
        requires { CursorIsWithin (2 ^ 63 + 2 ^ 61) self }
        ensures value { result ≡ stepped_cursor self statement.now.body }
        ensures small { (n : ℕ) → CursorIsWithin n self → CursorIsWithin (n + 1) result }
    {
        let mut next = self;
        if let Some(section) = section_of(statement) {
            next.section = section;
            return next;
        }
        let size = size(self.address(), statement);
        match self.section {
            Section::Text => next.text_at += size,
            Section::Data => next.data_at += size,
            Section::Zeros => next.zeros_at += size,
        }
        next
    }
}

/// The number of statements: below 2^61, by their size.
pub fn count_of<A: Allocator>(statements: &[Statement<'_, A>]) -> usize
    ensures value { result ≡ length statements.now }
    ensures small { length statements.now < 2 ^ 61 }
{
    statements.len()
}

/// The cursor after all statements.
pub fn cursor_after<A: Allocator>(start: Cursor, statements: &[Statement<'_, A>]) -> Cursor
    requires { CursorIsWithin (2 ^ 63) start }
    ensures value { result ≡ cursor_after start statements.now }
    ensures small { (n : ℕ) → CursorIsWithin n start → CursorIsWithin (n + 2 ^ 61) result }
{
    // The number of statements bounds the cursor.
    let _count = count_of(statements);
    let mut cursor = start;
    'statements: for statement in statements {
        cursor = cursor.step(statement);
    }
    cursor
}
