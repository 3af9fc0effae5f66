//! `asm`: from sources to the listing, or the bytes of an ELF file.

ghost use Rattle.std.specs.Prelude.{◌≡◌, ◌≢◌, ◌-◌, ◌^◌, ◌<◌, Ok, Err, All, IfOk, IfErr, IfSome, map, string_bytes};
ghost use Rattle.std.specs.Io.KnownBytes.{Appends, Keeps};
ghost use Rattle.cmd_asm.specs.Assembly.{file_of, listing_of, program_of_sources, AppendsBeginning, ComesBack, BeginsToWrite, FileIsOwn, IsSourceFault, WritesResult, WritesOwnFile, WritesOwnLines};
ghost use Rattle.cmd_asm.specs.Sources.{all_known, IfRead, RisesAt};

use crate::fault::AssemblyFault;
use crate::program::assemble;
use crate::sources::read_sources;
use asm_assemble::Program;
use asm_round_trip::list_source;
use byte_io::{Sink, Source, Status, write_all};
use elf_write::write_elf;
use std::alloc::{AllocError, Allocator};

fn borrowed_texts<'a, A: Allocator + Copy>(
    alloc: A,
    owned: &'a [String<A>],
) -> Result<Vec<&'a str, A>, AllocError>
    ensures { IfOk result (λ texts. map (λ s. s.now) texts.items ≡ map string_bytes owned.now) }
{
    let mut texts = Vec::new(alloc);
    'texts: for text in owned {
        let Ok(()) = texts.push(text.as_str()) else {
            return Err(AllocError);
        };
    }
    Ok(texts)
}

fn assembled_program<A: Allocator + Copy, S: Source>(
    alloc: A,
    sources: &mut [S],
) -> Result<Program<A>, AssemblyFault>
    requires { All (λ n. n < 2 ^ 64 - 1) (map S.failures sources.old) }
    ensures ok { IfOk result (λ program. IfSome (all_known (map S.left sources.old)) (λ all.
        program_of_sources all ≡ Ok program)) }
    ensures err { IfErr result (λ fault. IsSourceFault fault
        → IfSome (all_known (map S.left sources.old)) (λ all. program_of_sources all ≡ Err fault)) }
    ensures read { IfErr result (λ fault. IfRead fault
        (RisesAt (map S.failures sources.old) (map S.failures sources.new))) }
    ensures unwritten { IfErr result (λ fault. fault ≢ AssemblyFault.Write) }
{
    let owned = match read_sources(alloc, sources) {
        Ok(texts) => texts,
        Err(fault) => return Err(fault),
    };
    let Ok(texts) = borrowed_texts(alloc, &owned) else {
        return Err(AssemblyFault::Memory);
    };
    match assemble(alloc, &texts) {
        Ok(program) => Ok(program),
        Err(fault) => Err(AssemblyFault::from(fault)),
    }
}

/// The first half of `asm --out`: reads sources, each to its end in order, and makes the ELF file
/// of their program.
pub fn assembled_file<A: Allocator + Copy, S: Source>(
    alloc: A,
    sources: &mut [S],
) -> Result<Vec<u8, A>, AssemblyFault>
    requires { All (λ n. n < 2 ^ 64 - 1) (map S.failures sources.old) }
    ensures made { IfOk result (λ bytes. IfSome (all_known (map S.left sources.old)) (λ all.
        file_of all ≡ Ok bytes.items)) }
    // The file loads as the sources' own instructions.
    ensures own { IfOk result (λ bytes. IfSome (all_known (map S.left sources.old)) (λ all.
        FileIsOwn all bytes.items (program_of_sources all))) }
    ensures refused { IfErr result (λ fault. IsSourceFault fault
        → IfSome (all_known (map S.left sources.old)) (λ all. file_of all ≡ Err fault)) }
    ensures read { IfErr result (λ fault. IfRead fault
        (RisesAt (map S.failures sources.old) (map S.failures sources.new))) }
    ensures unwritten { IfErr result (λ fault. fault ≢ AssemblyFault.Write) }
{
    let program = match assembled_program(alloc, sources) {
        Ok(program) => program,
        Err(fault) => return Err(fault),
    };
    match write_elf(alloc, &program) {
        Ok(bytes) => Ok(bytes),
        Err(_) => Err(AssemblyFault::Memory),
    }
}

/// The second half of `asm --out`: writes the file's bytes. After a failed write the sink has a
/// beginning of them.
pub fn write_file<K: Sink>(sink: &mut K, bytes: &[u8]) -> Result<Status, AssemblyFault>
    requires { K.failures sink.old < 2 ^ 64 - 1 }
    ensures done { IfOk result (λ status. (status ≡ Status.Done)
        × Appends (K.held sink.old) (K.held sink.new) bytes.now) }
    ensures write { IfErr result (λ fault. (fault ≡ AssemblyFault.Write)
        × (K.failures sink.old < K.failures sink.new)) }
    ensures begun { IfErr result (λ _. AppendsBeginning (K.held sink.old) (K.held sink.new) bytes.now) }
{
    match write_all(sink, bytes) {
        Ok(()) => Ok(Status::Done),
        Err(_) => Err(AssemblyFault::Write),
    }
}

/// `asm --out`: reads sources, each to its end in order, and writes the ELF file of their program.
/// The sink isn't used before the file's bytes are made, so it may open its file then. After a
/// failed write the sink has a beginning of them.
pub fn file_engine<A: Allocator + Copy, S: Source, K: Sink>(
    alloc: A,
    sources: &mut [S],
    sink: &mut K,
) -> Result<Status, AssemblyFault>
    requires sources_count { All (λ n. n < 2 ^ 64 - 1) (map S.failures sources.old) }
    requires sink_counts { K.failures sink.old < 2 ^ 64 - 1 }
    ensures done { IfOk result (λ status. status ≡ Status.Done) }
    // The file was appended, and loads as the sources' own instructions.
    ensures written { IfOk result (λ _. IfSome (all_known (map S.left sources.old)) (λ all.
        WritesResult (file_of all) (K.held sink.old) (K.held sink.new))) }
    ensures own { IfOk result (λ _. IfSome (all_known (map S.left sources.old)) (λ all.
        WritesOwnFile all (K.held sink.old) (K.held sink.new))) }
    // A source is invalid, and nothing is written.
    ensures refused { IfErr result (λ fault. IsSourceFault fault
        → IfSome (all_known (map S.left sources.old)) (λ all. file_of all ≡ Err fault)) }
    ensures unwritten { IfErr result (λ fault. fault ≢ AssemblyFault.Write
        → Keeps (K.held sink.old) (K.held sink.new)) }
    // A device is named only if it failed.
    ensures read { IfErr result (λ fault. IfRead fault
        (RisesAt (map S.failures sources.old) (map S.failures sources.new))) }
    ensures write { result ≡ Err AssemblyFault.Write → K.failures sink.old < K.failures sink.new }
    ensures begun { result ≡ Err AssemblyFault.Write
        → IfSome (all_known (map S.left sources.old)) (λ all.
        BeginsToWrite (file_of all) (K.held sink.old) (K.held sink.new)) }
{
    let bytes = match assembled_file(alloc, sources) {
        Ok(bytes) => bytes,
        Err(fault) => return Err(fault),
    };
    write_file(sink, &bytes)
}

/// `asm` without `--out`: reads sources, each to its end in order, and writes the listing of their
/// program. Nothing is written if a source is invalid.
pub fn listing_engine<A: Allocator + Copy, S: Source, K: Sink>(
    alloc: A,
    sources: &mut [S],
    sink: &mut K,
) -> Result<Status, AssemblyFault>
    requires sources_count { All (λ n. n < 2 ^ 64 - 1) (map S.failures sources.old) }
    requires sink_counts { K.failures sink.old < 2 ^ 64 - 1 }
    // The listing was appended.
    ensures done { IfOk result (λ status. status ≡ Status.Done) }
    ensures listed { IfOk result (λ _. IfSome (all_known (map S.left sources.old)) (λ all.
        WritesResult (listing_of all) (K.held sink.old) (K.held sink.new))) }
    // Each instruction of the text has its line.
    ensures own { IfOk result (λ _. IfSome (all_known (map S.left sources.old)) (λ all.
        WritesOwnLines all (K.held sink.old) (K.held sink.new))) }
    // The listing is a source of the same text.
    ensures back { IfOk result (λ _. IfSome (all_known (map S.left sources.old)) (λ all.
        ComesBack (program_of_sources all))) }
    // A source is invalid, and nothing is written.
    ensures refused { IfErr result (λ fault. IsSourceFault fault
        → IfSome (all_known (map S.left sources.old)) (λ all. listing_of all ≡ Err fault)) }
    ensures unwritten { IfErr result (λ fault. fault ≢ AssemblyFault.Write
        → Keeps (K.held sink.old) (K.held sink.new)) }
    // A device is named only if it failed.
    ensures read { IfErr result (λ fault. IfRead fault
        (RisesAt (map S.failures sources.old) (map S.failures sources.new))) }
    ensures write { result ≡ Err AssemblyFault.Write → K.failures sink.old < K.failures sink.new }
    // After a failed write the sink has a beginning of the listing.
    ensures begun { result ≡ Err AssemblyFault.Write
        → IfSome (all_known (map S.left sources.old)) (λ all.
        BeginsToWrite (listing_of all) (K.held sink.old) (K.held sink.new)) }
{
    let program = match assembled_program(alloc, sources) {
        Ok(program) => program,
        Err(fault) => return Err(fault),
    };
    let Ok(text) = list_source(alloc, &program) else {
        return Err(AssemblyFault::Memory);
    };
    match write_all(sink, text.as_bytes()) {
        Ok(()) => Ok(Status::Done),
        Err(_) => Err(AssemblyFault::Write),
    }
}
