//! Properties of symbols without a clause: the rule on rows written by hand, and that calls
//! succeed.

use crate::patching::{Patch, patched};
use elf_read::{SymFault, Symbol, load, symbols};
use std::alloc::{AllocError, Global};

/// A file of 232 bytes: a null section, a symbol table at 172 with three symbols, its names at 220;
/// then 4 bytes.
#[rattlefmt::skip]
pub(crate) const WORDS: [u32; 58] = [
    0x464c_457f, 0x0001_0101, 0, 0, 0x00f3_0002, 1, 0, 0, 52, 0, // sections at 52
    0x0020_0034, 0x0028_0000, 3, // the sizes of the headers; three sections
    0, 0, 0, 0, 0, 0, 0, 0, 0, 0, // the null section, at 52
    0, 2, 0, 0, 172, 48, 2, 1, 4, 16, // the symbol table, at 92
    0, 3, 0, 0, 220, 8, 0, 0, 1, 0, // its names, at 132
    0, 0, 0, 0, // the null symbol, at 172
    1, 0x0001_0004, 0, 0, // "a", at 188
    3, 0x0001_0000, 0, 0, // "bc", at 204
    0x6200_6100, 0x0000_0063, 0, // the names, at 220
];

/// A place, the word that replaces the one there, and the fault of the symbols.
type WordRow = (usize, u32, Option<SymFault>);

const RULES: [WordRow; 31] = [
    (0, 0, None),
    (32, 0, Some(SymFault::NoTable)),
    (32, 113, Some(SymFault::BadTable)),
    (32, 0xffff_ffff, Some(SymFault::BadTable)),
    (48, 0, Some(SymFault::NoTable)),
    (48, 1, Some(SymFault::NoTable)),
    (48, 4, None),
    (48, 5, Some(SymFault::BadTable)),
    (96, 1, Some(SymFault::NoTable)),
    (44, 0x0027_0000, Some(SymFault::BadTable)),
    (44, 0x0029_0000, Some(SymFault::BadTable)),
    (128, 15, Some(SymFault::BadTable)),
    (128, 17, Some(SymFault::BadTable)),
    (112, 47, Some(SymFault::BadTable)),
    (112, 64, Some(SymFault::BadTable)),
    (112, 32, None),
    (112, 0, None),
    (108, 184, None),
    (108, 185, Some(SymFault::BadTable)),
    (108, 0xffff_ffff, Some(SymFault::BadTable)),
    (116, 1, Some(SymFault::BadTable)),
    (116, 3, Some(SymFault::BadTable)),
    (116, 0xffff_ffff, Some(SymFault::BadTable)),
    (136, 1, Some(SymFault::BadTable)),
    (152, 12, None),
    (152, 13, Some(SymFault::BadTable)),
    (152, 5, Some(SymFault::BadTable)),
    (152, 0, Some(SymFault::BadTable)),
    (204, 8, Some(SymFault::BadTable)),
    (220, 0x6200_ff00, Some(SymFault::BadTable)),
    (224, 0x7878_7878, Some(SymFault::BadTable)),
];

// The fault of the symbols of the file of `WORDS` with other words at some places.
fn fault_of(alloc: Global, patches: &[Patch]) -> Result<Option<SymFault>, AllocError> {
    let file = patched(alloc, &WORDS, patches)?;
    Ok(symbols(alloc, &file).err())
}

#[test]
fn each_rule_refuses_its_files_alone(rt: HostRuntime) {
    for (place, word, fault) in &RULES {
        assert!(rt;
            fault_of(rt.alloc(), &[(*place, *word)]) == Ok(*fault),
            "{word} at {place}"
        );
    }
}

/// Lengths of prefixes of a file without sections, and the faults of their symbols.
const LENGTHS: [(usize, SymFault); 3] = [
    (52, SymFault::NoTable),
    (51, SymFault::BadTable),
    (0, SymFault::BadTable),
];

fn fault_of_beginning(alloc: Global, length: usize) -> Result<Option<SymFault>, AllocError> {
    let mut file = patched(alloc, &WORDS, &[(32, 0)])?;
    file.truncate(length);
    Ok(symbols(alloc, &file).err())
}

#[test]
fn a_short_file_has_a_bad_table(rt: HostRuntime) {
    for (length, fault) in &LENGTHS {
        assert!(rt;
            fault_of_beginning(rt.alloc(), *length) == Ok(Some(*fault)),
            "{length} bytes"
        );
    }
}

fn is_named(symbol: &Symbol<Global>, name: &str, address: u32) -> bool {
    symbol.name.as_str() == name && symbol.address == address
}

// Whether these are the two named symbols.
fn are_named(found: &[Symbol<Global>]) -> bool {
    match found {
        [first, second] => {
            is_named(first, "a", 0x0001_0004) && is_named(second, "bc", 0x0001_0000)
        }
        _ => false,
    }
}

// Whether a file with other words at some places has these two symbols.
fn has_both(alloc: Global, patches: &[Patch]) -> Result<bool, SymFault> {
    let Ok(file) = patched(alloc, &WORDS, patches) else {
        return Err(SymFault::Memory);
    };
    let found = symbols(alloc, &file)?;
    Ok(are_named(&found))
}

// The null symbol has no name. Of two symbol tables the first counts.
#[test]
fn named_symbols_come_in_the_tables_order(rt: HostRuntime) {
    assert!(rt; has_both(rt.alloc(), &[(48, 3), (176, 0)]) == Ok(true));
    assert!(rt; has_both(rt.alloc(), &[(48, 4), (176, 2)]) == Ok(true));
}

/// The file of `WORDS` with other words at some places, and the number of its symbols.
struct Counted {
    name: &'static str,
    patches: &'static [Patch],
    count: Result<usize, SymFault>,
}

/// The table, its names and the headers may overlap.
#[rattlefmt::skip]
const SHARED_BYTES: [Counted; 6] = [
    Counted { name: "names in the symbols", patches: &[(148, 172), (152, 48)], count: Ok(0) },
    Counted { name: "names in the sections", patches: &[(148, 52), (152, 120)], count: Ok(0) },
    Counted { name: "names in the file's header", patches: &[(148, 0), (152, 8)], count: Ok(3) },
    Counted { name: "symbols in the null section", patches: &[(108, 52), (112, 32)], count: Ok(0) },
    Counted { name: "symbols in their own section's header", patches: &[(108, 92), (112, 48)], count: Err(SymFault::BadTable) },
    Counted { name: "symbols in the file's header", patches: &[(108, 0), (112, 48)], count: Err(SymFault::BadTable) },
];

fn count_of(alloc: Global, patches: &[Patch]) -> Result<usize, SymFault> {
    let Ok(file) = patched(alloc, &WORDS, patches) else {
        return Err(SymFault::Memory);
    };
    Ok(symbols(alloc, &file)?.len())
}

#[test]
fn tables_may_share_bytes(rt: HostRuntime) {
    for row in &SHARED_BYTES {
        assert!(rt;
            count_of(rt.alloc(), row.patches) == row.count,
            "{}",
            row.name
        );
    }
}

// Whether a file with an invalid table has no symbols, but loads.
fn is_loaded_without_symbols(alloc: Global) -> Result<bool, AllocError> {
    let file = patched(alloc, &WORDS, &[(44, 0x0027_0000)])?;
    Ok(symbols(alloc, &file).err() == Some(SymFault::BadTable) && load(alloc, &file).err() == None)
}

#[test]
fn a_bad_table_loads(rt: HostRuntime) {
    assert!(rt; is_loaded_without_symbols(rt.alloc()) == Ok(true));
}

const TEXTS: [(SymFault, &'static str); 3] = [
    (SymFault::NoTable, "no symbol table"),
    (SymFault::BadTable, "bad symbol table"),
    (SymFault::Memory, "out of memory"),
];

fn has_text(alloc: Global, fault: SymFault, text: &str) -> Result<bool, AllocError> {
    Ok(fault.to_string(alloc)?.as_str() == text)
}

#[test]
fn faults_have_texts(rt: HostRuntime) {
    for (fault, text) in &TEXTS {
        assert!(rt; has_text(rt.alloc(), *fault, text) == Ok(true), "{text}");
    }
}
