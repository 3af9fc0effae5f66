//! The bytes of the text and of the data.
ghost use Rattle.std.specs.Prelude.{◌≡◌, ◌<◌, ◌+◌, ◌^◌};
ghost use Rattle.asm_assemble.specs.Program.{symbol_list};
ghost use Rattle.asm_assemble.specs.Cursors.{CursorIsWithin, cursor_address};
ghost use Rattle.asm_assemble.specs.Valuing.{Pushes, bytes_in, put_all, no_bytes};

use crate::cursor::Cursor;
use crate::program::Symbols;
use crate::push::{PushFault, push_statement};
use asm_statement::{Section, Statement};
use std::alloc::Allocator;
use std::marker::Model;

/// The bytes of the sections, of the statements evaluated so far.
#[derive(Drop)]
pub struct Sections<A: Allocator> {
    pub text: Vec<u8, A>,
    pub bytes: Vec<u8, A>,
}

impl<A: Allocator> Model for Sections<A> {
    ghost use Rattle.asm_assemble.specs.Valuing.{Images};

    ghost Value = { Images };

    ghost view = { λ s. record { text_bytes = s.text.items; data_bytes = s.bytes.items } };
}

impl<A: Allocator + Copy> Sections<A> {
    /// Sections without bytes.
    pub fn new(alloc: A) -> Sections<A>
        ensures { result ≡ no_bytes }
    {
        Sections {
            text: Vec::new(alloc),
            bytes: Vec::new(alloc),
        }
    }
}

impl<A: Allocator> Sections<A> {
    /// Appends the bytes of a statement at the cursor; `local` is the address of its local
    /// reference.
    #[tactic(auto, using(crate::proofs::Pushed::in_text, crate::proofs::Pushed::in_data, crate::proofs::Pushed::in_zeros), unfolding(crate::specs::Valuing::bytes_in))]
    pub fn push(
        &mut self,
        symbols: &Symbols<A>,
        local: Option<u32>,
        cursor: &Cursor,
        statement: &Statement<'_, A>,
    ) -> Result<(), PushFault>
        requires { CursorIsWithin (2 ^ 63 + 2 ^ 61) cursor.now }
        ensures { Pushes result self.new (put_all cursor.now.section self.old (bytes_in
            (symbol_list symbols.now.entries) local cursor.now.section (cursor_address cursor.now)
            statement.now.body)) }
    {
        let at = cursor.address();
        match cursor.section {
            Section::Text => {
                push_statement(&mut self.text, symbols, local, Section::Text, at, statement)
            }
            Section::Data => {
                push_statement(
                    &mut self.bytes,
                    symbols,
                    local,
                    Section::Data,
                    at,
                    statement,
                )
            }
            Section::Zeros => Ok(()),
        }
    }
}
