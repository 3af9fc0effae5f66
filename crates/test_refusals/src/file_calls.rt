//! Calls that read files and images, and that make memories of them.
use elf_read::{SymFault, load, symbols};
use hart_local::Code;
use image::ElfFault;
use isa_disasm::{line_of, list_image};
use mem_flat::FlatStore;
use mem_paged::PageStore;
use mem_store::{FromImage, Store, StoreFault};
use std::alloc::{AllocError, Allocator, Global};
use test_images::{PROGRAM_START, Part, bytes_of, image_of};
use test_refusing::{Call, tried};

// A call.
#[derive(Clone, Copy)]
enum FileCall {
    Load,
    Symbols,
    NewImage,
    LineOf,
    ListImage,
    NewCode,
    NewFlatStore,
    CopyFlatStore,
    NewPageStore,
    StoreIntoPage,
}

// All of them.
const CALLS: [(&str, FileCall); 10] = [
    ("load", FileCall::Load),
    ("symbols", FileCall::Symbols),
    ("new image", FileCall::NewImage),
    ("line_of", FileCall::LineOf),
    ("list_image", FileCall::ListImage),
    ("new code", FileCall::NewCode),
    ("new flat store", FileCall::NewFlatStore),
    ("copy of a flat store", FileCall::CopyFlatStore),
    ("new page store", FileCall::NewPageStore),
    ("store into a page", FileCall::StoreIntoPage),
];

// A file of 232 bytes: one segment with `ecall`, a symbol table with one symbol, and its names.
#[rattlefmt::skip]
const WORDS: [u32; 58] = [
    // the entry; one program header at 52, three sections at 84
    0x464c_457f, 0x0001_0101, 0, 0, 0x00f3_0002, 1, 0x0001_0000, 52, 84, 0,
    0x0020_0034, 0x0028_0001, 3, // the sizes of the headers
    1, 228, 0x0001_0000, 0, 4, 4, 5, 4, // the segment, at 52
    0, 0, 0, 0, 0, 0, 0, 0, 0, 0, // the null section, at 84
    0, 2, 0, 0, 204, 16, 2, 0, 4, 16, // the symbol table, at 124
    0, 3, 0, 0, 220, 8, 0, 0, 1, 0, // its names, at 164
    1, 0x0001_0000, 0, 0, // "end", at 204
    0x646e_6500, 0, // the names, at 220
    0x0000_0073, // the text, at 228
];

impl Call for FileCall {
    fn answer<A: Allocator + Copy>(&self, alloc: A, _host: Global) -> Result<bool, AllocError> {
        match self {
            FileCall::Load => is_loaded(alloc),
            FileCall::Symbols => has_symbols(alloc),
            FileCall::NewImage => is_image(alloc),
            FileCall::LineOf => is_line(alloc),
            FileCall::ListImage => is_listed(alloc),
            FileCall::NewCode => is_code(alloc),
            FileCall::NewFlatStore => is_flat(alloc),
            FileCall::CopyFlatStore => is_copied(alloc),
            FileCall::NewPageStore => is_paged(alloc),
            FileCall::StoreIntoPage => is_stored(alloc),
        }
    }
}

fn is_loaded<A: Allocator + Copy>(alloc: A) -> Result<bool, AllocError> {
    let bytes = bytes_of(alloc, &WORDS)?;
    match load(alloc, &bytes) {
        Ok(image) => Ok(image.segments().len() == 1),
        Err(ElfFault::Memory) => Err(AllocError),
        Err(_) => Ok(false),
    }
}

fn has_symbols<A: Allocator + Copy>(alloc: A) -> Result<bool, AllocError> {
    let bytes = bytes_of(alloc, &WORDS)?;
    match symbols(alloc, &bytes) {
        Ok(found) => Ok(found.len() == 1),
        Err(SymFault::Memory) => Err(AllocError),
        Err(_) => Ok(false),
    }
}

// `ecall` at 0x10000, and four bytes that may be written at 0x11000.
#[rattlefmt::skip]
const TWO_SEGMENTS: [Part; 2] = [
    Part { base: 0x0001_0000, size: 4, flags: 5, bytes: &[0x73, 0, 0, 0] },
    Part { base: 0x0001_1000, size: 4, flags: 6, bytes: &[1] },
];

fn is_image<A: Allocator + Copy>(alloc: A) -> Result<bool, AllocError> {
    let image = image_of(alloc, PROGRAM_START, &TWO_SEGMENTS)?;
    Ok(image.segments().len() == 2)
}

fn is_line<A: Allocator + Copy>(alloc: A) -> Result<bool, AllocError> {
    let line = line_of(alloc, 0x0001_0018, 0x0003_8a63)?;
    Ok(line.as_str() == "beq t2, zero, 0x0001002c")
}

fn is_listed<A: Allocator + Copy>(alloc: A) -> Result<bool, AllocError> {
    let image = image_of(alloc, PROGRAM_START, &TWO_SEGMENTS)?;
    let text = list_image(alloc, &image)?;
    Ok(text.as_str() == "# segment 00010000 4\necall  # 00010000 00000073\n")
}

fn is_code<A: Allocator + Copy>(alloc: A) -> Result<bool, AllocError> {
    let image = image_of(alloc, PROGRAM_START, &TWO_SEGMENTS)?;
    let code = Code::new(alloc, &image)?;
    Ok(code.segments().len() == 1)
}

// Whether a memory has the image's words.
fn has_words<S: Store>(store: &S) -> bool {
    store.fetch(0x0001_0000) == Some(0x73) && store.load32(0x0001_1000) == Ok(1)
}

fn is_flat<A: Allocator + Copy>(alloc: A) -> Result<bool, AllocError> {
    let image = image_of(alloc, PROGRAM_START, &TWO_SEGMENTS)?;
    let store = FlatStore::from_image(alloc, &image)?;
    Ok(has_words(&store))
}

fn is_copied<A: Allocator + Copy>(alloc: A) -> Result<bool, AllocError> {
    let image = image_of(alloc, PROGRAM_START, &TWO_SEGMENTS)?;
    let store = FlatStore::from_image(alloc, &image)?;
    let copy = store.copy(alloc)?;
    Ok(has_words(&store) && has_words(&copy))
}

fn is_paged<A: Allocator + Copy>(alloc: A) -> Result<bool, AllocError> {
    let image = image_of(alloc, PROGRAM_START, &TWO_SEGMENTS)?;
    let store = PageStore::from_image(alloc, &image)?;
    Ok(has_words(&store))
}

// Whether a store into a page that a copy shares was answered: where it is refused, neither has
// changed.
fn answer_of_store<S: Store>(
    stored: Result<(), StoreFault>,
    store: &S,
    copy: &S,
) -> Result<bool, AllocError> {
    match stored {
        Ok(()) => Ok(has_words(copy) && store.load32(0x0001_1000) == Ok(7)),
        Err(StoreFault::Memory) if has_words(copy) && has_words(store) => Err(AllocError),
        Err(_) => Ok(false),
    }
}

// A copy, and a store into a page that it shares.
fn is_stored<A: Allocator + Copy>(alloc: A) -> Result<bool, AllocError> {
    let image = image_of(alloc, PROGRAM_START, &TWO_SEGMENTS)?;
    let mut store = PageStore::from_image(alloc, &image)?;
    let copy = store.copy(alloc)?;
    let stored = store.store32(0x0001_1000, 7);
    answer_of_store(stored, &store, &copy)
}

#[test]
fn calls_on_files_tell_want_of_memory(rt: HostRuntime) {
    for (name, call) in &CALLS {
        assert!(rt; tried(rt.alloc(), call) == Ok(()), "{name}");
    }
}
