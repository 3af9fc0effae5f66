//! The library's table of kinds.

ghost use Rattle.std.specs.Prelude.{◌≡◌};
ghost use Rattle.object_library.specs.Images.{words_of, zeros_of};
ghost use Rattle.object_library.specs.Names.{object_name};
ghost use Rattle.object_library.specs.Sources.{source_of};

use crate::kind::Kind;
use crate::text::{ADD, ADOPT_COMMIT, LRSC, ROUNDS, SWAP};
use crate::texts::{ADD_SOURCE, ADOPT_COMMIT_SOURCE, LRSC_SOURCE, ROUNDS_SOURCE, SWAP_SOURCE};
use hart_reservations::MAX_HARTS;

/// The library's entry of a kind.
#[derive(Clone, Copy)]
pub(crate) struct Entry {
    /// Its name on the command line.
    pub(crate) name: &'static str,
    /// Its assembler source.
    pub(crate) source: &'static str,
    /// The words of its text.
    pub(crate) words: &'static [u32],
    /// The number of its data bytes.
    pub(crate) zeros: u32,
}

/// The entry of a kind.
pub(crate) fn entry_of(kind: Kind) -> Entry
    ensures name { result.name.now ≡ object_name kind }
    ensures source { result.source.now ≡ source_of kind }
    ensures words { result.words.now ≡ words_of kind }
    ensures zeros { result.zeros ≡ zeros_of kind }
{
    let slots = MAX_HARTS as u32;
    match kind {
        Kind::Swap => Entry {
            name: "swap",
            source: SWAP_SOURCE,
            words: &SWAP,
            // the contended word, and the inputs of two harts
            zeros: 12,
        },
        Kind::Add => Entry {
            name: "add",
            source: ADD_SOURCE,
            words: &ADD,
            zeros: 12,
        },
        Kind::LrSc => Entry {
            name: "lrsc",
            source: LRSC_SOURCE,
            words: &LRSC,
            // the contended word, and the input of each hart
            zeros: 4 + 4 * slots,
        },
        Kind::AdoptCommit => Entry {
            name: "adopt",
            source: ADOPT_COMMIT_SOURCE,
            words: &ADOPT_COMMIT,
            // a record of four words for each hart
            zeros: 16 * slots,
        },
        Kind::Rounds => Entry {
            name: "rounds",
            source: ROUNDS_SOURCE,
            words: &ROUNDS,
            // four objects, each with 512 bytes for the records of 32 harts
            zeros: 4 * 512,
        },
    }
}

/// The assembler source of an object, one statement a line.
pub fn source(kind: Kind) -> &'static str
    ensures { result.now ≡ source_of kind }
{
    entry_of(kind).source
}

/// The words of an object's text, at 0x00010000.
pub fn words(kind: Kind) -> &'static [u32]
    ensures { result.now ≡ words_of kind }
{
    entry_of(kind).words
}

/// The number of an object's data bytes, at 0x00011000; they are 0 at the start.
pub fn zeros(kind: Kind) -> u32
    ensures { result ≡ zeros_of kind }
{
    entry_of(kind).zeros
}
