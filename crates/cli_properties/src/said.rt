//! The properties of an order.

use byte_io::Status;
use cli_args::RunOrder;
use cli_report::{bad_line, out_of_memory};
use elf_read::Symbol;
use property_judge::{Judged, Property};
use property_text::{PropertyFault, read_always, read_never_both};
use std::alloc::{Allocator, Global};

/// The properties of an order, not yet judged: of its range, and then of its word. One that is none
/// is reported.
pub(crate) fn properties_said<R: AllocGlobal + Eprint, A: Allocator>(
    rt: &R,
    symbols: &[Symbol<A>],
    order: &RunOrder,
) -> Result<Vec<Judged>, Status> {
    let mut judged = Vec::new(rt.alloc());
    if let Some(text) = order.never_both {
        let read = read_never_both(symbols, text.as_bytes());
        push_said(rt, &mut judged, text, read)?;
    }
    if let Some(text) = order.always {
        let read = read_always(symbols, text.as_bytes());
        push_said(rt, &mut judged, text, read)?;
    }
    Ok(judged)
}

// Appends the property of a text, or reports that it is none.
fn push_said(
    rt: &impl Eprint,
    judged: &mut Vec<Judged, Global>,
    text: &str,
    read: Result<Property, PropertyFault>,
) -> Result<(), Status> {
    let property = match read {
        Ok(property) => property,
        Err(fault) => {
            let why = fault.advice();
            let _ = eprintln!(rt; "rvcons: '{text}': {why}");
            return Err(Status::BadLine);
        }
    };
    let pushed = judged.push(Judged {
        property,
        broken: None,
    });
    match pushed {
        Ok(()) => Ok(()),
        Err(_) => Err(out_of_memory(rt)),
    }
}
