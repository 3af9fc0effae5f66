//! Bytes as pairs of digits.
ghost use Rattle.std.specs.Prelude.{◌≡◌, ◌≢◌, Some, None, IfOk, IfErr};
ghost use Rattle.gdb_requests.specs.Bytes.{byte_of, paired_bytes, front_byte};

use crate::fault::RequestFault;
use crate::operands::behind_first;
use gdb_frames::hex_value;
use std::alloc::Allocator;

// The byte of two digits, the higher one first.
fn byte(first: u8, second: u8) -> Option<u8>
    ensures { result ≡ byte_of first second }
{
    let high = hex_value(first)?;
    let low = hex_value(second)?;
    Some(16 * high + low)
}

// The byte of the two digits at the front.
fn front_byte(text: &[u8]) -> Option<u8>
    ensures { result ≡ front_byte text.now }
{
    match text {
        [first, second, ..] => byte(*first, *second),
        _ => None,
    }
}

/// The bytes of a text of digits.
pub fn read_bytes<A: Allocator>(alloc: A, text: &[u8]) -> Result<Vec<u8, A>, RequestFault>
    ensures ok { IfOk result (λ bytes. paired_bytes text.now ≡ Some bytes.items) }
    ensures bad { IfErr result (λ fault. fault ≢ RequestFault.Memory
        → paired_bytes text.now ≡ None) }
    ensures err { IfErr result (λ fault. fault ≢ RequestFault.Memory
        → fault ≡ RequestFault.BadOperand) }
{
    let mut bytes = Vec::new(alloc);
    let mut rest = text;
    'pairs: while !rest.is_empty() {
        let Some(byte) = front_byte(rest) else {
            return Err(RequestFault::BadOperand);
        };
        let Ok(()) = bytes.push(byte) else {
            return Err(RequestFault::Memory);
        };
        rest = behind_first(behind_first(rest));
    }
    Ok(bytes)
}
