//! Names the places of faults that a summary by cause has, for a person.

use elf_read::{Symbol, nearest_label};
use hint_fault::symbols_or_none;
use std::alloc::{AllocError, Global};

// The greatest number of places that are named.
const MOST_PLACES: usize = 16;

// The places of faults that a summary by cause has, each once: 00010038 of ` Break at 00010038`.
fn places_in(alloc: Global, summary: &str) -> Result<Vec<u32>, AllocError> {
    let mut places = Vec::new(alloc);
    let mut follows_at = false;
    for word in summary.split_ascii_whitespace() {
        if follows_at && places.len() < MOST_PLACES {
            push_new(&mut places, word)?;
        }
        follows_at = word == "at";
    }
    Ok(places)
}

// Appends the place of eight digits, if it is a new one.
fn push_new(places: &mut Vec<u32>, digits: &str) -> Result<(), AllocError> {
    match u32::from_str_radix(digits, 16) {
        Ok(place) if !places.contains(&place) => places.push(place)?,
        _ => {}
    }
    Ok(())
}

// Shows a place by the label before it, as `00010038 is done+8`.
fn show_place(rt: &impl Eprint, symbols: &[Symbol<Global>], place: u32) -> Option<()> {
    let label = nearest_label(symbols, place)?;
    let name = label.name.as_str();
    match place.saturating_sub(label.address) {
        0 => eprintln!(rt; "{place:08x} is {name}").ok(),
        distance => eprintln!(rt; "{place:08x} is {name}+{distance}").ok(),
    }
}

/// Shows the label before each place of a fault in a summary by cause. Of more than 16 places the
/// first 16 are shown.
pub fn explain_places<R: AllocGlobal + Eprint>(
    rt: &R,
    summary: &[u8],
    program: &[u8],
) -> Option<()> {
    let summary = str::from_utf8(summary).ok()?;
    let places = places_in(rt.alloc(), summary).ok()?;
    let symbols = symbols_or_none(rt.alloc(), program);
    for place in &places {
        let _ = show_place(rt, &symbols, *place);
    }
    Some(())
}
