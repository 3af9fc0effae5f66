//! Bytes and words as a debugger shows them, whatever their rights.
ghost use Rattle.std.specs.Prelude.{◌≡◌, ◌%◌, ◌<◌};
ghost use Rattle.mem_store.specs.Access.{peeked};
ghost use Rattle.debug_session.specs.Words.{byte_or_zero, viewed_word};

use mem_store::Store;

/// The byte at an address, or 0 if it is not mapped.
pub fn byte_at<S: Store>(store: &S, address: u32) -> u8
    ensures { result ≡ byte_or_zero (peeked (S.memory store.now) address) }
{
    match store.peek(address) {
        Some(byte) => byte,
        None => 0,
    }
}

/// The word at an address that is a multiple of 4, little-endian. Bytes that are not mapped count
/// as 0.
#[tactic(auto, unfolding(crate::specs::Words::viewed_word))]
pub fn word_at<S: Store>(store: &S, address: u32) -> u32
    requires { address % 4 ≡ 0 }
    ensures { result ≡ viewed_word (S.memory store.now) address }
{
    u32::from_le_bytes([
        byte_at(store, address),
        byte_at(store, address + 1),
        byte_at(store, address + 2),
        byte_at(store, address + 3),
    ])
}
