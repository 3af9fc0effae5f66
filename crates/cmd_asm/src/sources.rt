//! Reads sources.

ghost use Rattle.std.specs.Prelude.{◌≡◌, ◌-◌, ◌^◌, ◌<◌, Some, None, All, IfOk, IfErr, IfSome, map, string_bytes};
ghost use Rattle.cmd_asm.specs.Sources.{all_known, first_other, IfNotText, IfRead, IsOfReading, RisesAt};

use crate::fault::AssemblyFault;
use byte_io::{ReadFault, Source, read_all};
use std::alloc::Allocator;

/// Reads each source to its end, in order. The fault is that of the first that can't be read or
/// isn't UTF-8.
pub fn read_sources<A: Allocator + Copy, S: Source>(
    alloc: A,
    sources: &mut [S],
) -> Result<Vec<String<A>, A>, AssemblyFault>
    requires { All (λ n. n < 2 ^ 64 - 1) (map S.failures sources.old) }
    ensures texts { IfOk result (λ texts. IfSome (all_known (map S.left sources.old)) (λ all.
        (map string_bytes texts.items ≡ all) × (first_other 0 all ≡ None))) }
    ensures other { IfErr result (λ fault. IfSome (all_known (map S.left sources.old)) (λ all.
        IfNotText fault (λ place. first_other 0 all ≡ Some place))) }
    ensures read { IfErr result (λ fault. IfRead fault
        (RisesAt (map S.failures sources.old) (map S.failures sources.new))) }
    ensures written { IfErr result (λ fault. IsOfReading fault) }
{
    let mut texts = Vec::new(alloc);
    let mut place = 0;
    'sources: while place < sources.len() {
        let bytes = match read_all(alloc, &mut sources[place]) {
            Ok(bytes) => bytes,
            Err(ReadFault::Device) => return Err(AssemblyFault::Read(place)),
            Err(ReadFault::Memory) => return Err(AssemblyFault::Memory),
        };
        let text = match String::from_utf8(bytes) {
            Ok(text) => text,
            Err(_) => return Err(AssemblyFault::NotText(place)),
        };
        // Gives the proof that the text is UTF-8.
        let _bytes = text.as_str();
        let Ok(()) = texts.push(text) else {
            return Err(AssemblyFault::Memory);
        };
        place += 1;
    }
    Ok(texts)
}
