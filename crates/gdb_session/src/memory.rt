//! Bytes of memory.
ghost use Rattle.std.specs.Prelude.{◌≡◌, ◌+◌, ◌++◌, OnOk, OnErr};
ghost use Rattle.gdb_replies.specs.Digits.{bytes_text};
ghost use Rattle.gdb_replies.specs.Fronts.{BeginsWith};
ghost use Rattle.gdb_session.specs.Memory.{byte_seen, mapped_bytes, memory_text};

use crate::fixed::push_fixed;
use gdb_replies::{FixedReply, push_byte};
use mem_store::Store;
use std::alloc::{AllocError, Allocator};

// The most bytes of an answer, each of two digits: an answer has fewer than 0x4000 bytes.
const MOST: u32 = 0x1fff;

// The byte at an offset from an address, if it is mapped; there is none above address 2^32 - 1.
fn byte_seen<S: Store>(store: &S, address: u32, offset: u32) -> Option<u8>
    ensures { result ≡ byte_seen (S.memory store.now) (address + offset) }
{
    store.peek(address.checked_add(offset)?)
}

// Appends the bytes from an address on, up to the first that is not mapped.
fn push_mapped<S: Store, A: Allocator>(
    store: &S,
    out: &mut Vec<u8, A>,
    address: u32,
    count: u32,
) -> Result<(), AllocError>
    ensures ok { OnOk result (out.new.items ≡ out.old.items
        ++ bytes_text (mapped_bytes (S.memory store.now) address count)) }
    ensures kept { OnErr result (BeginsWith out.new.items out.old.items) }
{
    'bytes: for offset in 0..count {
        let Some(byte) = byte_seen(store, address, offset) else {
            return Ok(());
        };
        push_byte(out, byte)?;
    }
    Ok(())
}

/// Appends the mapped bytes from an address on, whatever their rights, at most as many as were
/// asked for and 0x1fff; or `E14` if the first isn't mapped.
#[tactic(auto, unfolding(crate::specs::Memory::memory_text))]
pub fn push_memory<S: Store, A: Allocator>(
    store: &S,
    out: &mut Vec<u8, A>,
    address: u32,
    length: u32,
) -> Result<(), AllocError>
    ensures ok { OnOk result (out.new.items ≡ out.old.items
        ++ memory_text (S.memory store.now) address length) }
    ensures kept { OnErr result (BeginsWith out.new.items out.old.items) }
{
    if length != 0 && byte_seen(store, address, 0).is_none() {
        return push_fixed(out, FixedReply::Unmapped);
    }
    push_mapped(store, out, address, length.min(MOST))
}
