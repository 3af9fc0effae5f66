//! A program of two words, and accesses to them.
use bank_laws::{LoggedAccess, LoggedKind};
use test_images::Part;

/// The first word, which is in bank 0.
pub(crate) const WORD: u32 = 0x0001_0000;

/// The first word's bytes.
pub(crate) const FIRST: [u8; 4] = [1, 2, 3, 4];

/// Other bytes.
pub(crate) const OTHER: [u8; 4] = [9, 0, 0, 0];

/// Two words with all rights, of which the second is zero.
pub(crate) const TWO_WORDS: [Part; 1] = [Part {
    base: WORD,
    size: 8,
    flags: 7,
    bytes: &FIRST,
}];

/// An access to the first word, by a hart without a mark there.
pub(crate) fn access(
    stamp: u64,
    hart: u32,
    kind: LoggedKind,
    before: [u8; 4],
    after: [u8; 4],
) -> LoggedAccess {
    LoggedAccess {
        stamp,
        hart,
        kind,
        word: WORD,
        before,
        after,
        mark: false,
    }
}
