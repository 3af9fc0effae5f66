//! Files of words, some of them replaced.

use std::alloc::{AllocError, Global};

/// A place in a file, and the word that replaces the one there.
pub(crate) type Patch = (usize, u32);

// The word at an index of a file, or the one that a patch gives.
fn patched_word(number: usize, given: u32, patches: &[Patch]) -> u32 {
    let mut word = given;
    for (place, other) in patches {
        if *place / 4 == number {
            word = *other;
        }
    }
    word
}

/// The file of these words, with other words at some places.
pub(crate) fn patched(
    alloc: Global,
    words: &[u32],
    patches: &[Patch],
) -> Result<Vec<u8, Global>, AllocError> {
    let mut file = Vec::new(alloc);
    for (number, given) in words.iter().enumerate() {
        let word = patched_word(number, *given, patches);
        file.extend_from_slice(&word.to_le_bytes())?;
    }
    Ok(file)
}
