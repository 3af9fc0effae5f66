//! Where a program begins.

use crate::advise::SourceText;
use crate::labels::{is_defined, labels_of};
use std::alloc::{AllocError, Allocator};

/// Where the program of sources begins, as a whole line, if they have `main` in the place of
/// `_start`; else empty.
pub fn entry_advice<A: Allocator + Copy>(
    alloc: A,
    sources: &[SourceText<'_>],
) -> Result<&'static str, AllocError> {
    let labels = labels_of(alloc, sources)?;
    if is_defined(&labels, "_start") || !is_defined(&labels, "main") {
        return Ok("");
    }
    Ok(
        "there is no _start: the program begins at the first instruction of .text, wherever main is\n",
    )
}
