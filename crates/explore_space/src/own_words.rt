//! Words that belong to one hart each.
ghost use Rattle.std.specs.Prelude.{◌≡◌, [], IfOk, None};
ghost use Rattle.explore_space.specs.Failing.{IsUnowned};
ghost use Rattle.explore_space.specs.Habits.{owners_in};

use crate::question::Always;
use std::alloc::{AllocError, Allocator};

/// A word, and the hart that it belongs to: as long as no other hart touches it, its hart's steps on
/// it are taken at once.
#[derive(Clone, Copy)]
pub struct OwnWord {
    /// The word's address, a multiple of 4.
    pub word: u32,
    /// The hart's number.
    pub hart: u32,
}

/// The hart that a word belongs to, if it belongs to one: the list's first entry for it counts.
pub fn owner_of(words: &[OwnWord], address: u32) -> Option<u32>
    ensures { result ≡ owners_in words.now address }
{
    'words: for own in words {
        if own.word == address {
            return Some(own.hart);
        }
    }
    None
}

/// The list without the entries for a word. Fails when out of memory.
pub fn without<A: Allocator>(
    alloc: A,
    words: &[OwnWord],
    address: u32,
) -> Result<Vec<OwnWord, A>, AllocError>
    ensures unowned { IfOk result (λ left. owners_in left.items address ≡ None) }
    ensures none { words.now ≡ [] → IfOk result (λ left. left.items ≡ []) }
{
    let mut left = Vec::new(alloc);
    'words: for own in words {
        if own.word != address {
            left.push(*own)?;
        }
    }
    Ok(left)
}

/// The list without the word that is judged, if one is. Fails when out of memory.
pub fn unjudged<A: Allocator>(
    alloc: A,
    words: Vec<OwnWord, A>,
    always: Option<Always>,
) -> Result<Vec<OwnWord, A>, AllocError>
    ensures unowned { IfOk result (λ left. IsUnowned always (owners_in left.items)) }
    ensures none { words.items ≡ [] → IfOk result (λ left. left.items ≡ []) }
{
    match always {
        None => Ok(words),
        Some(always) => without(alloc, &words, always.word),
    }
}
