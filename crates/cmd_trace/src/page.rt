//! How traced choices are written.

use crate::plan::TraceForm;
use elf_read::Symbol;
use std::alloc::Allocator;
use std::marker::Model;

/// How the traced choices of a run are written.
#[derive(Drop)]
pub(crate) struct Page<'a, A: Allocator> {
    /// The form.
    pub(crate) form: TraceForm,
    /// The number of harts.
    pub(crate) harts: u32,
    /// The program's symbols.
    pub(crate) symbols: &'a [Symbol<A>],
    /// The word whose accesses alone are written, if it is one.
    pub(crate) word: Option<u32>,
}

impl<'a, A: Allocator> Model for Page<'a, A> {
    ghost use Rattle.cmd_trace.specs.Page.{PageValue};

    ghost Value = { PageValue };

    ghost view = { λ p. record { form = p.form; harts = p.harts; symbols = p.symbols.now; word = p.word } };
}
