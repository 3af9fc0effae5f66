//! The number that bytes of memory spell.
ghost use Rattle.std.specs.Prelude.{◌≡◌, IfSome};
ghost use Rattle.trace_steps.specs.Bytes.{number_there, bytes_number, IsSize};

use hart_step::Access;
use mem_store::Store;

/// The last address of a word.
const LAST_WORD: u32 = 0xffff_fffc;

/// The last address of a half of a word.
const LAST_HALF: u32 = 0xffff_fffe;

// The byte at an address.
fn byte_there<S: Store>(store: &S, address: u32) -> Option<u32>
    ensures { result ≡ number_there (S.memory store.now) 1 address }
{
    let byte = store.peek(address)?;
    Some(byte as u32)
}

// The number that two bytes spell, each looked at by itself: one that has no right is mapped too.
fn peeked_half<S: Store>(store: &S, address: u32) -> Option<u32>
    ensures { result ≡ number_there (S.memory store.now) 2 address }
{
    if address > LAST_HALF {
        return None;
    }
    let b0 = store.peek(address)?;
    let b1 = store.peek(address + 1)?;
    Some(u16::from_le_bytes([b0, b1]) as u32)
}

// The number that four bytes spell, each looked at by itself: one that has no right is mapped too.
fn peeked_word<S: Store>(store: &S, address: u32) -> Option<u32>
    ensures { result ≡ number_there (S.memory store.now) 4 address }
{
    if address > LAST_WORD {
        return None;
    }
    let b0 = store.peek(address)?;
    let b1 = store.peek(address + 1)?;
    let b2 = store.peek(address + 2)?;
    let b3 = store.peek(address + 3)?;
    Some(u32::from_le_bytes([b0, b1, b2, b3]))
}

// The number that two bytes spell. Mostly one load answers.
fn half_there<S: Store>(store: &S, address: u32) -> Option<u32>
    ensures { result ≡ number_there (S.memory store.now) 2 address }
{
    match store.load16(address) {
        Ok(number) => Some(number as u32),
        Err(_) => peeked_half(store, address),
    }
}

// The number that four bytes spell. Mostly one load answers.
fn word_there<S: Store>(store: &S, address: u32) -> Option<u32>
    ensures { result ≡ number_there (S.memory store.now) 4 address }
{
    match store.load32(address) {
        Ok(number) => Some(number),
        Err(_) => peeked_word(store, address),
    }
}

// The number that 1, 2 or 4 bytes spell.
fn number_there<S: Store>(store: &S, size: u32, address: u32) -> Option<u32>
    requires { IsSize size }
    ensures { result ≡ number_there (S.memory store.now) size address }
{
    match size {
        1 => byte_there(store, address),
        2 => half_there(store, address),
        _ => word_there(store, address),
    }
}

/// The number that the bytes of an access spell, whatever their rights; none where they are not all
/// mapped, or there is no access.
pub fn number_in<S: Store>(store: &S, access: Option<Access>) -> Option<u32>
    requires { IfSome access (λ a. IsSize a.size) }
    ensures { result ≡ bytes_number (S.memory store.now) access }
{
    let access = access?;
    number_there(store, access.size, access.address)
}
