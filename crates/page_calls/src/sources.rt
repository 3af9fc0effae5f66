//! `asm`: from one source to its file or its listing.

ghost use Rattle.std.specs.Prelude.{◌≢◌, [], ◌∷◌};
ghost use Rattle.cmd_asm.specs.Assembly.{IsSourceFault, file_of, listing_of};
ghost use Rattle.cmd_asm.specs.Faults.{assembly_status};
ghost use Rattle.page_calls.specs.Replies.{KeepsRest, TellsAnswer, TellsFault, ends_well};

use crate::reply::{Reply, answered, refused};
use byte_io::{MemorySink, MemorySource, Status};
use cmd_asm::{AssemblyFault, assembled_file, listing_engine};
use std::alloc::Allocator;

/// The reply for sources with this fault. A source in memory can be read, and a sink in memory
/// refuses a byte only where memory is refused.
pub(crate) fn refused_by<A: Allocator>(alloc: A, fault: AssemblyFault, out: &mut [u8]) -> Reply
    ensures told { IsSourceFault fault → TellsFault (assembly_status fault) out.new result }
    ensures other { result ≢ Reply.NoMemory → IsSourceFault fault }
    ensures kept { KeepsRest out.old out.new result }
{
    match fault {
        AssemblyFault::Memory | AssemblyFault::Write | AssemblyFault::Read(_) => Reply::NoMemory,
        fault => refused(alloc, &fault, fault.status(), out),
    }
}

/// `asm --out`: the bytes of the ELF file of one source.
pub fn assemble_call<A: Allocator + Copy>(alloc: A, source: &[u8], out: &mut [u8]) -> Reply
    ensures told { TellsAnswer assembly_status (ends_well (file_of (source.now ∷ []))) out.new result }
    ensures kept { KeepsRest out.old out.new result }
{
    let mut sources = [MemorySource::new(source)];
    match assembled_file(alloc, &mut sources) {
        Ok(bytes) => answered(&bytes, Status::Done, out),
        Err(fault) => refused_by(alloc, fault, out),
    }
}

/// `asm`: the listing of one source.
pub fn listing_call<A: Allocator + Copy>(alloc: A, source: &[u8], out: &mut [u8]) -> Reply
    ensures told { TellsAnswer assembly_status (ends_well (listing_of (source.now ∷ []))) out.new result }
    ensures kept { KeepsRest out.old out.new result }
{
    let mut sources = [MemorySource::new(source)];
    let mut sink = MemorySink::new(alloc);
    match listing_engine(alloc, &mut sources, &mut sink) {
        Ok(status) => answered(sink.bytes(), status, out),
        Err(fault) => refused_by(alloc, fault, out),
    }
}
