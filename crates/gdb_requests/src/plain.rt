//! Requests without a list.
ghost use Rattle.std.specs.Prelude.{◌≡◌};
ghost use Rattle.gdb_requests.specs.Requests.{bare_question, bare_move, query_of, selection_of, numbered_of, lettered_of, plain_of};

use crate::fault::RequestFault;
use crate::features::announces;
use crate::numbers::hex_number;
use crate::operands::{pair, point, threads};
use crate::request::Plain;
use crate::words::{behind, is_word};

// The request of a packet that asks, and has no operand.
fn bare_question(text: &[u8]) -> Option<Plain>
    ensures { result ≡ bare_question text.now }
{
    if is_word(text, "?") {
        return Some(Plain::Reason);
    }
    if is_word(text, "g") {
        return Some(Plain::Registers);
    }
    if is_word(text, "qC") {
        return Some(Plain::CurrentThread);
    }
    if is_word(text, "qAttached") {
        return Some(Plain::Attached);
    }
    if is_word(text, "qSymbol::") {
        return Some(Plain::Symbols);
    }
    if is_word(text, "qfThreadInfo") {
        return Some(Plain::FirstThreads);
    }
    if is_word(text, "qsThreadInfo") {
        return Some(Plain::MoreThreads);
    }
    if is_word(text, "vCont?") {
        return Some(Plain::Actions);
    }
    None
}

// The request of a packet that moves, or changes the session, and has no operand.
fn bare_move(text: &[u8]) -> Option<Plain>
    ensures { result ≡ bare_move text.now }
{
    if is_word(text, "c") {
        return Some(Plain::Continue);
    }
    if is_word(text, "s") {
        return Some(Plain::Step);
    }
    if is_word(text, "bc") {
        return Some(Plain::BackContinue);
    }
    if is_word(text, "bs") {
        return Some(Plain::BackStep);
    }
    if is_word(text, "QStartNoAckMode") {
        return Some(Plain::NoAcks);
    }
    if is_word(text, "D") {
        return Some(Plain::Detach);
    }
    if is_word(text, "k") {
        return Some(Plain::Kill);
    }
    None
}

// The request of a packet that begins with `q`, by what follows.
fn query(text: &[u8]) -> Result<Plain, RequestFault>
    ensures { result ≡ query_of text.now }
{
    if let Some(list) = behind(text, "Supported") {
        return Ok(Plain::Supported {
            software_stops: announces(list, "swbreak+"),
        });
    }
    if let Some(piece) = behind(text, "Xfer:features:read:target.xml:") {
        return match pair(piece) {
            Some((from, length)) => Ok(Plain::Target { from, length }),
            None => Err(RequestFault::BadOperand),
        };
    }
    if let Some(piece) = behind(text, "Xfer:threads:read::") {
        return match pair(piece) {
            Some((from, length)) => Ok(Plain::ThreadList { from, length }),
            None => Err(RequestFault::BadOperand),
        };
    }
    if let Some(thread) = behind(text, "ThreadExtraInfo,") {
        return match hex_number(thread) {
            Some(thread) => Ok(Plain::ThreadState(thread)),
            None => Err(RequestFault::BadOperand),
        };
    }
    Err(RequestFault::Unknown)
}

// The request of a packet that begins with `H`, by what follows.
fn selection(text: &[u8]) -> Result<Plain, RequestFault>
    ensures { result ≡ selection_of text.now }
{
    let [letter, operand @ ..] = text else {
        return Err(RequestFault::BadOperand);
    };
    let Some(named) = threads(operand) else {
        return Err(RequestFault::BadOperand);
    };
    match letter {
        b'g' => Ok(Plain::ReadThread(named)),
        b'c' => Ok(Plain::MoveThreads(named)),
        _ => Err(RequestFault::BadOperand),
    }
}

// The request of a packet of a letter and numbers.
fn numbered(letter: u8, text: &[u8]) -> Result<Plain, RequestFault>
    ensures { result ≡ numbered_of letter text.now }
{
    let request = match letter {
        b'T' => hex_number(text).map(Plain::IsThere),
        b'p' => hex_number(text).map(Plain::Register),
        b'm' => pair(text).map(|numbers| Plain::Memory {
            address: numbers.0,
            length: numbers.1,
        }),
        _ => return Err(RequestFault::Unknown),
    };
    request.ok_or(RequestFault::BadOperand)
}

// The request of a packet of a letter and operands.
fn lettered(letter: u8, text: &[u8]) -> Result<Plain, RequestFault>
    ensures { result ≡ lettered_of letter text.now }
{
    match letter {
        b'q' => query(text),
        b'H' => selection(text),
        b'Z' => Ok(Plain::Insert(point(text)?)),
        b'z' => Ok(Plain::Remove(point(text)?)),
        b'G' | b'P' | b'M' | b'X' => Ok(Plain::Write),
        _ => numbered(letter, text),
    }
}

/// The request of a packet that has no list.
#[tactic(auto, unfolding(crate::specs::Requests::plain_of))]
pub fn read_plain(text: &[u8]) -> Result<Plain, RequestFault>
    ensures { result ≡ plain_of text.now }
{
    if let Some(request) = bare_question(text) {
        return Ok(request);
    }
    if let Some(request) = bare_move(text) {
        return Ok(request);
    }
    match text {
        [letter, operands @ ..] => lettered(*letter, operands),
        [] => Err(RequestFault::Unknown),
    }
}
