//! Pieces of a long text.
ghost use Rattle.std.specs.Prelude.{◌≡◌, ◌++◌, drop, OnOk, OnErr};
ghost use Rattle.gdb_replies.specs.Fronts.{BeginsWith};
ghost use Rattle.gdb_replies.specs.Pieces.{piece_text};

use std::alloc::{AllocError, Allocator};

// The most bytes of a piece: an answer has at most 0x4000 bytes, and the first is a letter.
const MOST: usize = 0x3fff;

// The bytes of a text from a place on.
fn from_place(text: &[u8], place: usize) -> &[u8]
    ensures { result.now ≡ drop place text.now }
{
    if place < text.len() {
        &text[place..]
    } else {
        &[]
    }
}

/// Appends a piece of a text: `m` and at most `count` bytes from byte `from` on, or `l` and the
/// rest, if there are no more bytes. Behind the text's end the rest is empty.
pub fn push_piece<A: Allocator>(
    out: &mut Vec<u8, A>,
    whole: &[u8],
    from: u32,
    count: u32,
) -> Result<(), AllocError>
    ensures ok { OnOk result (out.new.items ≡ out.old.items ++ piece_text whole.now from count) }
    ensures kept { OnErr result (BeginsWith out.new.items out.old.items) }
{
    let rest = from_place(whole, from as usize);
    let size = MOST.min(count as usize);
    if size < rest.len() {
        out.push(b'm')?;
        return out.extend_from_slice(&rest[..size]);
    }
    out.push(b'l')?;
    out.extend_from_slice(rest)
}
