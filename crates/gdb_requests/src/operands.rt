//! Operands of packets.
ghost use Rattle.std.specs.Prelude.{◌≡◌, drop};
ghost use Rattle.gdb_requests.specs.Operands.{point_kind, two_numbers, point_of, threads_of};

use crate::fault::RequestFault;
use crate::numbers::hex_number;
use crate::request::{Point, PointKind, Threads};
use crate::words::is_word;
use text_items::split_at_byte;

/// The bytes behind the first one.
pub fn behind_first(text: &[u8]) -> &[u8]
    ensures { result.now ≡ drop 1 text.now }
{
    match text {
        [_, rest @ ..] => rest,
        [] => text,
    }
}

/// Two numbers with a comma between them.
pub fn pair(text: &[u8]) -> Option<(u32, u32)>
    ensures { result ≡ two_numbers text.now }
{
    let (first, rest) = split_at_byte(text, b',');
    let first = hex_number(first)?;
    let second = hex_number(behind_first(rest))?;
    Some((first, second))
}

/// The threads of an operand.
pub fn threads(text: &[u8]) -> Option<Threads>
    ensures { result ≡ threads_of text.now }
{
    if is_word(text, "-1") {
        return Some(Threads::All);
    }
    match hex_number(text)? {
        0 => Some(Threads::Any),
        number => Some(Threads::One(number)),
    }
}

// The kind of a point.
fn kind(digit: u8) -> Option<PointKind>
    ensures { result ≡ point_kind digit }
{
    match digit {
        b'0' => Some(PointKind::Software),
        b'1' => Some(PointKind::Hardware),
        b'2' => Some(PointKind::Write),
        b'3' => Some(PointKind::Read),
        b'4' => Some(PointKind::Access),
        _ => None,
    }
}

/// The point of a packet, behind its letter: a digit, a comma, and two numbers. A digit that is no
/// kind of a point makes the packet an unknown one, if its numbers are good.
pub fn point(text: &[u8]) -> Result<Point, RequestFault>
    ensures { result ≡ point_of text.now }
{
    let [digit, b',', numbers @ ..] = text else {
        return Err(RequestFault::Unknown);
    };
    if !digit.is_ascii_digit() {
        return Err(RequestFault::Unknown);
    }
    let Some((address, length)) = pair(numbers) else {
        return Err(RequestFault::BadOperand);
    };
    let Some(kind) = kind(*digit) else {
        return Err(RequestFault::Unknown);
    };
    Ok(Point {
        kind,
        address,
        length,
    })
}
