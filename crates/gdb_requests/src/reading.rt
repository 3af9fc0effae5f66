//! Reading of requests.
ghost use Rattle.std.specs.Prelude.{◌≡◌, ◌≢◌, Ok, Err, IfOk, IfErr};
ghost use Rattle.gdb_requests.specs.Asked.{asked, request_of};

use crate::actions::read_actions;
use crate::bytes::read_bytes;
use crate::fault::RequestFault;
use crate::plain::read_plain;
use crate::request::Request;
use crate::words::behind;
use std::alloc::Allocator;

/// The request of a packet with this data.
pub fn read_request<A: Allocator>(alloc: A, text: &[u8]) -> Result<Request<A>, RequestFault>
    ensures ok { IfOk result (λ request. request_of text.now ≡ Ok (asked request)) }
    ensures err { IfErr result (λ fault. fault ≢ RequestFault.Memory
        → request_of text.now ≡ Err fault) }
{
    if let Some(list) = behind(text, "vCont;") {
        return Ok(Request::Resume(read_actions(alloc, list)?));
    }
    if let Some(digits) = behind(text, "qRcmd,") {
        return Ok(Request::Monitor(read_bytes(alloc, digits)?));
    }
    Ok(Request::Plain(read_plain(text)?))
}
