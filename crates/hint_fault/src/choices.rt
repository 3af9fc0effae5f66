//! Items of choice texts and histories.

// The greatest number of bytes of an item that are shown.
const MOST_SHOWN: usize = 24;

// Whether a byte separates items.
fn is_blank(byte: u8) -> bool {
    matches!(byte, b' ' | b'\t' | b'\n' | b'\r')
}

/// The item at an offset, at most 24 bytes of it; `?` if it isn't UTF-8.
pub fn item_at(text: &[u8], offset: usize) -> &str {
    let (_, rest) = text.split_at(offset.min(text.len()));
    let len = rest
        .iter()
        .take(MOST_SHOWN)
        .take_while(|byte| !is_blank(**byte))
        .count();
    let (item, _) = rest.split_at(len.min(rest.len()));
    match str::from_utf8(item) {
        Ok(item) => item,
        Err(_) => "?",
    }
}
