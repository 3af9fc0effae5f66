//! Tests what no clause says of malformed files: example answers for each beginning of a file and
//! for each of its bytes changed. That an answer is the definition's is proved; the tests are that
//! there is one, and the same by each way to it.
use byte_io::{MemorySink, MemorySource, Status};
use cmd_asm::assembled_file;
use cmd_run::{FileView, file_engine};
use elf_read::{SymFault, load, symbols};
use image::ElfFault;
use object_library::{Kind, source};
use program_open::{CommandFault, deliver};
use std::alloc::{AllocError, Global};

// The length of Swap's file; its headers end at the first place, and its symbol table begins at the
// second.
const LENGTH: usize = 8576;

const CONTENT: usize = 116;

const TABLES: usize = 8192;

// The file of Swap's source.
fn swap_file(alloc: Global) -> Result<Vec<u8>, AllocError> {
    let mut sources = [MemorySource::new(source(Kind::Swap).as_bytes())];
    match assembled_file(alloc, &mut sources) {
        Ok(file) => Ok(file),
        Err(_) => Err(AllocError),
    }
}

// The fault of a beginning of the file; `None` if it loads.
fn fault_of_beginning(length: usize) -> Option<ElfFault> {
    if length < 52 {
        Some(ElfFault::Short)
    } else if length < 4156 {
        Some(ElfFault::OutsideFile)
    } else {
        None
    }
}

// The fault of its symbols; `None` if they are all there.
fn symbol_fault_of_beginning(length: usize) -> Option<SymFault> {
    if length < LENGTH {
        Some(SymFault::BadTable)
    } else {
        None
    }
}

// Whether a beginning of the file has its answers.
fn is_answered(alloc: Global, beginning: &[u8]) -> bool {
    load(alloc, beginning).err() == fault_of_beginning(beginning.len())
        && symbols(alloc, beginning).err() == symbol_fault_of_beginning(beginning.len())
}

// Number of beginnings of a file that have, the shortest first, up to the first that hasn't.
fn count_answered(alloc: Global, file: &[u8]) -> usize {
    for length in 0..=file.len() {
        let (beginning, _) = file.split_at(length);
        if !is_answered(alloc, beginning) {
            return length;
        }
    }
    file.len().saturating_add(1)
}

fn length_of_swap(alloc: Global) -> Result<usize, AllocError> {
    Ok(swap_file(alloc)?.len())
}

// The same for Swap's file.
fn count_of_swap(alloc: Global) -> Result<usize, AllocError> {
    let file = swap_file(alloc)?;
    Ok(count_answered(alloc, file.as_slice()))
}

#[test]
fn each_beginning_has_its_answers(rt: HostRuntime) -> Result<(), AllocError> {
    let answered = count_of_swap(rt.alloc())?;
    assert!(rt; length_of_swap(rt.alloc()) == Ok(LENGTH));
    assert!(rt; answered == LENGTH + 1, "{answered} bytes");
    Ok(())
}

// The answer of `info` for a file.
fn facts(alloc: Global, file: &[u8]) -> (Result<Status, CommandFault>, MemorySink<Global>) {
    let mut program = MemorySource::new(file);
    let mut sink = MemorySink::new(alloc);
    let answer = file_engine(alloc, FileView::Facts, &mut program);
    let result = deliver(&mut sink, answer);
    (result, sink)
}

const WHOLE: &str = "entry 00010000\nsegment 00010000 60 r-x\nsegment 00011000 12 rw-\n\
symbol 0001002c win\nsymbol 00010000 _start\nlibrary swap\n";

const WITHOUT_TABLES: &str = "entry 00010000\nsegment 00010000 60 r-x\nsegment 00011000 12 rw-\n\
symbols bad\nlibrary swap\n";

// Lengths of beginnings, the longest first, with the answers of `info`.
const SHOWN: [(usize, Result<&'static str, ElfFault>); 8] = [
    (8576, Ok(WHOLE)),
    (8575, Ok(WITHOUT_TABLES)),
    (8192, Ok(WITHOUT_TABLES)),
    (4156, Ok(WITHOUT_TABLES)),
    (4155, Err(ElfFault::OutsideFile)),
    (52, Err(ElfFault::OutsideFile)),
    (51, Err(ElfFault::Short)),
    (0, Err(ElfFault::Short)),
];

// Whether `info` answers as expected for a beginning of Swap's file.
fn is_shown(
    alloc: Global,
    length: usize,
    wanted: Result<&'static str, ElfFault>,
) -> Result<bool, AllocError> {
    let mut file = swap_file(alloc)?;
    file.truncate(length);
    let (result, sink) = facts(alloc, &file);
    match wanted {
        Ok(text) => Ok(result == Ok(Status::Done) && sink.bytes() == text.as_bytes()),
        Err(fault) => Ok(result == Err(CommandFault::Elf(fault)) && sink.bytes().is_empty()),
    }
}

#[test]
fn info_shows_a_beginning_that_loads(rt: HostRuntime) {
    for (length, wanted) in &SHOWN {
        assert!(rt;
            is_shown(rt.alloc(), *length, *wanted) == Ok(true),
            "{length} bytes"
        );
    }
}

// The values that each byte of the file is changed to.
const BYTES: [u8; 8] = [0x00, 0x01, 0x02, 0x04, 0x10, 0x7f, 0x80, 0xff];

// Replaces the byte at an offset of a file, and returns the one before.
fn put(file: &mut Vec<u8>, place: usize, byte: u8) -> Option<u8> {
    let slot = file.get_mut(place)?;
    let kept = *slot;
    *slot = byte;
    Some(kept)
}

// Whether `info` answers for a file what `load` and `symbols` do.
fn is_told_alike(alloc: Global, file: &[u8]) -> bool {
    let loaded = load(alloc, file).err();
    let found = symbols(alloc, file).err();
    let (result, sink) = facts(alloc, file);
    match (result, loaded) {
        (Ok(Status::Done), None) => {
            sink.bytes().starts_with(b"entry ") && found != Some(SymFault::Memory)
        }
        (Err(CommandFault::Elf(fault)), Some(wanted)) => fault == wanted && sink.bytes().is_empty(),
        _ => false,
    }
}

// Whether they agree for a file with another byte at an offset; the byte is restored.
fn is_change_told(alloc: Global, file: &mut Vec<u8>, place: usize, byte: u8) -> bool {
    let Some(kept) = put(file, place, byte) else {
        return false;
    };
    let is_told = is_told_alike(alloc, file);
    put(file, place, kept).is_some() && is_told
}

// The same for each value at an offset.
fn is_place_told(alloc: Global, file: &mut Vec<u8>, place: usize) -> bool {
    for byte in BYTES {
        if !is_change_told(alloc, file, place, byte) {
            return false;
        }
    }
    true
}

// The first offset of Swap's file, from one up to another, for which they disagree; the last one if
// they never do.
fn place_told(alloc: Global, first: usize, end: usize) -> Result<usize, AllocError> {
    let mut file = swap_file(alloc)?;
    for place in first..end {
        if !is_place_told(alloc, &mut file, place) {
            return Ok(place);
        }
    }
    Ok(end)
}

#[test]
fn a_changed_header_or_table_is_told_alike(rt: HostRuntime) -> Result<(), AllocError> {
    for (first, end) in [(0, CONTENT), (TABLES, LENGTH)] {
        let place = place_told(rt.alloc(), first, end)?;
        assert!(rt; place == end, "byte {place}");
    }
    Ok(())
}

// Whether a file with another byte at an offset loads; the byte is restored.
fn is_change_loaded(alloc: Global, file: &mut Vec<u8>, place: usize, byte: u8) -> bool {
    let Some(kept) = put(file, place, byte) else {
        return false;
    };
    let is_loaded = load(alloc, file).is_ok();
    put(file, place, kept).is_some() && is_loaded
}

// The same for each value at an offset; the file then has its symbols.
fn is_place_loaded(alloc: Global, file: &mut Vec<u8>, place: usize) -> bool {
    for byte in BYTES {
        if !is_change_loaded(alloc, file, place, byte) {
            return false;
        }
    }
    symbols(alloc, file).is_ok()
}

// The first offset in the content of Swap's file where a change does not load; the end if each
// does.
fn place_loaded(alloc: Global) -> Result<usize, AllocError> {
    let mut file = swap_file(alloc)?;
    for place in CONTENT..TABLES {
        if !is_place_loaded(alloc, &mut file, place) {
            return Ok(place);
        }
    }
    Ok(TABLES)
}

// No check looks at the bytes of segments, nor at those that belong to nothing.
#[test]
fn changed_content_loads(rt: HostRuntime) -> Result<(), AllocError> {
    let place = place_loaded(rt.alloc())?;
    assert!(rt; place == TABLES, "byte {place}");
    Ok(())
}
