//! What a symbol names and where it is, and the labels of addresses, on files written by hand.

use crate::patching::{Patch, patched};
use crate::symbol_tests::WORDS;
use elf_read::{SymFault, Symbol, SymbolKind, SymbolPlace, nearest_label, symbols};
use std::alloc::Global;

// The place of the word with st_info, st_other and st_shndx of each of the two named symbols.
const FIRST: usize = 200;

const SECOND: usize = 216;

fn symbols_with(alloc: Global, patches: &[Patch]) -> Result<Vec<Symbol<Global>>, SymFault> {
    match patched(alloc, &WORDS, patches) {
        Ok(file) => symbols(alloc, &file),
        Err(_) => Err(SymFault::Memory),
    }
}

/// The word with st_info in its lowest byte and st_shndx in its high half, what such a symbol names,
/// and where it is.
type FieldsRow = (u32, SymbolKind, SymbolPlace);

#[rattlefmt::skip]
static FIELDS: [FieldsRow; 15] = [
    (0x0000_0000, SymbolKind::Unsaid, SymbolPlace::Elsewhere),
    (0x0001_0010, SymbolKind::Unsaid, SymbolPlace::Elsewhere),
    (0x0002_0001, SymbolKind::Object, SymbolPlace::Elsewhere),
    (0x0002_0011, SymbolKind::Object, SymbolPlace::Elsewhere),
    (0x0001_0002, SymbolKind::Function, SymbolPlace::Elsewhere),
    (0x0001_0222, SymbolKind::Function, SymbolPlace::Elsewhere),
    (0x0001_0003, SymbolKind::Section, SymbolPlace::Elsewhere),
    (0xfff1_0004, SymbolKind::File, SymbolPlace::Absolute),
    (0x0001_0004, SymbolKind::File, SymbolPlace::Elsewhere),
    (0x0001_0005, SymbolKind::Other, SymbolPlace::Elsewhere),
    (0x0001_000f, SymbolKind::Other, SymbolPlace::Elsewhere),
    (0xfff1_0010, SymbolKind::Unsaid, SymbolPlace::Absolute),
    (0xfff1_ff01, SymbolKind::Object, SymbolPlace::Absolute),
    (0xfff0_0000, SymbolKind::Unsaid, SymbolPlace::Elsewhere),
    (0xfff2_0000, SymbolKind::Unsaid, SymbolPlace::Elsewhere),
];

fn field_rows() -> &'static [FieldsRow] {
    &FIELDS
}

// Whether the second symbol of the file with this word is of this kind and at this place.
fn is_read(alloc: Global, row: &FieldsRow) -> Result<bool, SymFault> {
    let (word, kind, place) = *row;
    let found = symbols_with(alloc, &[(SECOND, word)])?;
    match found.as_slice() {
        [_, second] => Ok(second.kind == kind && second.place == place),
        _ => Ok(false),
    }
}

#[test]
fn a_symbol_has_its_type_and_its_place(rt: HostRuntime) {
    for row in field_rows() {
        assert!(rt; is_read(rt.alloc(), row) == Ok(true), "{}", row.0);
    }
}

/// The words of both symbols, of which the second is put at an address, an address, and the name of
/// its label.
struct Labeled {
    first: u32,
    second: u32,
    second_at: u32,
    address: u32,
    label: Option<&'static str>,
}

/// `a` is at 0x00010004.
#[rattlefmt::skip]
static LABELS: [Labeled; 14] = [
    Labeled { first: 0, second: 0, second_at: 0x0001_0004, address: 0x0001_0004, label: Some("a") },
    Labeled { first: 0, second: 0, second_at: 0x0001_0004, address: 0xffff_ffff, label: Some("a") },
    Labeled { first: 0, second: 0, second_at: 0x0001_0004, address: 0x0001_0003, label: None },
    Labeled { first: 0, second: 2, second_at: 0x0001_0004, address: 0x0001_0006, label: Some("bc") },
    Labeled { first: 0, second: 1, second_at: 0x0001_0004, address: 0x0001_0006, label: Some("bc") },
    Labeled { first: 1, second: 2, second_at: 0x0001_0004, address: 0x0001_0004, label: Some("a") },
    Labeled { first: 2, second: 0, second_at: 0x0001_0004, address: 0x0001_0004, label: Some("a") },
    Labeled { first: 3, second: 0, second_at: 0x0001_0004, address: 0x0001_0004, label: Some("a") },
    Labeled { first: 2, second: 0, second_at: 0x0001_0005, address: 0x0001_0005, label: Some("bc") },
    Labeled { first: 4, second: 0, second_at: 0x0001_0004, address: 0x0001_0004, label: Some("bc") },
    Labeled { first: 0xfff1_0000, second: 0, second_at: 0x0001_0000, address: 0x0001_0004, label: Some("bc") },
    Labeled { first: 0xfff1_0002, second: 0, second_at: 0x0001_0004, address: 0x0001_0004, label: Some("bc") },
    Labeled { first: 0, second: 0xfff1_0001, second_at: 0x0001_0004, address: 0x0001_0004, label: Some("a") },
    Labeled { first: 4, second: 0xfff1_0004, second_at: 0x0001_0000, address: 0x0001_0004, label: None },
];

fn label_rows() -> &'static [Labeled] {
    &LABELS
}

// Whether the address has this label.
fn is_labeled(alloc: Global, row: &Labeled) -> Result<bool, SymFault> {
    let patches = [
        (FIRST, row.first),
        (SECOND, row.second),
        (208, row.second_at),
    ];
    let found = symbols_with(alloc, &patches)?;
    match (nearest_label(&found, row.address), row.label) {
        (Some(symbol), Some(name)) => Ok(symbol.name.as_str() == name),
        (None, None) => Ok(true),
        _ => Ok(false),
    }
}

#[test]
fn functions_and_objects_are_labels_first(rt: HostRuntime) {
    for row in label_rows() {
        assert!(rt;
            is_labeled(rt.alloc(), row) == Ok(true),
            "{} {} {}",
            row.first,
            row.second,
            row.address
        );
    }
}
