//! A line of a text by its number.

use std::alloc::{AllocError, Allocator};

/// The line with this number, from 1, without its end.
pub fn line_at(text: &str, number: usize) -> Option<&str> {
    text.lines().nth(number.saturating_sub(1))
}

/// Appends a line that is safe for a terminal: each control character but tab becomes `?`.
pub fn push_line<A: Allocator>(text: &mut String<A>, line: &str) -> Result<(), AllocError> {
    'characters: for character in line.chars() {
        let is_shown = character == '\t' || !character.is_control();
        text.push(if is_shown { character } else { '?' })?;
    }
    Ok(())
}
