//! Runs `list` and `info`.

use byte_io::{ReaderSource, Status};
use cli_orders::{InfoOrder, ListOrder};
use cli_report::{Audience, RunFiles, cannot_open, print_answer, print_text, say_why};
use cmd_info::{FileView, SymbolOrder, facts_engine, file_engine};
use std::fs;
use std::rt::Files;

/// Lists the executable segments of an ELF file.
pub fn obey_list<R: Files + AllocGlobal + Print + Eprint>(
    rt: &R,
    audience: Audience,
    order: &ListOrder,
) -> Status {
    show(rt, audience, FileView::Listing, order.file)
}

/// Shows the facts of an ELF file.
pub fn obey_info<R: Files + AllocGlobal + Print + Eprint>(
    rt: &R,
    audience: Audience,
    order: &InfoOrder,
) -> Status {
    if order.json {
        return show_object(rt, audience, order);
    }
    let view = if order.by_address {
        FileView::FactsByAddress
    } else {
        FileView::Facts
    };
    show(rt, audience, view, order.file)
}

// Shows the facts of an ELF file as an object of JSON.
fn show_object<R: Files + AllocGlobal + Print + Eprint>(
    rt: &R,
    audience: Audience,
    order: &InfoOrder,
) -> Status {
    let symbols = if order.by_address {
        SymbolOrder::ByAddress
    } else {
        SymbolOrder::OfFile
    };
    let file = match fs::open(rt, order.file) {
        Ok(file) => file,
        Err(error) => return cannot_open(rt, audience, order.file, &error),
    };
    let answer = facts_engine(rt.alloc(), symbols, &mut ReaderSource::new(file));
    let written = match answer {
        Ok(text) => print_text(rt, &text),
        Err(fault) => Err(fault),
    };
    match written {
        Ok(()) => Status::Done,
        Err(fault) => say_why(rt, audience, RunFiles::of_program(order.file, 0), fault),
    }
}

// Shows a view of the ELF file at a path.
fn show<R: Files + AllocGlobal + Print + Eprint>(
    rt: &R,
    audience: Audience,
    view: FileView,
    path: &str,
) -> Status {
    let file = match fs::open(rt, path) {
        Ok(file) => file,
        Err(error) => return cannot_open(rt, audience, path, &error),
    };
    let answer = file_engine(rt.alloc(), view, &mut ReaderSource::new(file));
    let files = RunFiles::of_program(path, 0);
    match print_answer(rt, answer) {
        Ok(status) => status,
        Err(fault) => say_why(rt, audience, files, fault),
    }
}
