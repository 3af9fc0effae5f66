//! Explains files that aren't programs: what each is, and what to do.

use elf_read::elf::E_TYPE;
use image::ElfFault;

// Text, such as an assembler source.
const SOURCE: &str =
    "this is text, as an assembler source is: make a program of it first, by rvcons asm --out prog.elf prog.s";

// Text of hexadecimal words.
const HEX_WORDS: &str = "this is text of hexadecimal words: write --hex before it";

// A library of object files.
const ARCHIVE: &str = "this is a library of object files: link it, as docs/C.md shows";

// Not an ELF file.
const NO_ELF: &str =
    "this is no ELF file: make one by rvcons asm --out prog.elf prog.s, or from C as docs/C.md shows";

// A truncated file.
const CUT_OFF: &str = "the file ends before its parts do: it is cut off or damaged";

// A file for 64 bits.
const WIDE: &str =
    "this file is for 64 bits: compile and link with -march=rv32ia -mabi=ilp32 and -m elf32lriscv";

// A big-endian file.
const BIG_ENDIAN: &str = "this file is big-endian: compile for little-endian RISC-V, -march=rv32ia";

// A file of another version of ELF.
const OTHER_VERSION: &str =
    "this file is of another version of ELF than 1: it is damaged, or no ELF file";

// An object file.
const RELOCATABLE: &str =
    "this is an object file: link it first, by ld -m elf32lriscv, as docs/C.md shows";

// A shared or a position-independent file.
const SHARED: &str =
    "this file is shared or position-independent: link with -static -no-pie, as docs/C.md shows";

// Another type of file.
const NOT_EXECUTABLE: &str = "this ELF file is no executable: link one, as docs/C.md shows";

// A file for another processor.
const OTHER_PROCESSOR: &str =
    "this file is for another processor: compile for RISC-V, -march=rv32ia -mabi=ilp32";

// A file with compressed code.
const COMPRESSED: &str =
    "this file has compressed code: compile with -march=rv32ia, without c, its libraries too";

// A file whose headers are damaged.
const DAMAGED: &str =
    "the file's headers don't fit it: it is damaged, or made in another way than docs/FILES.md tells";

// Segments that share addresses or end above the last one.
const BAD_SEGMENTS: &str =
    "its segments share addresses, or end above ffffffff: look at the linker script";

// More than 2^24 bytes.
const TOO_LARGE: &str =
    "its segments have more than 16777216 bytes together: make its arrays or its stack smaller";

// A file that needs a dynamic linker.
const DYNAMIC: &str = "this file wants a dynamic linker, and there is none: link with -static";

// A misaligned entry.
const ODD_ENTRY: &str =
    "its entry is no multiple of 4: write .align 2 before _start, and compile without compressed code";

// The number of bytes by which a file is recognized.
const LOOKED_AT: usize = 512;

// Whether a byte is one of a text: printable, or a blank.
fn is_of_text(byte: u8) -> bool {
    matches!(byte, b'\t' | b'\n' | b'\r' | 32..=126 | 0x80..)
}

// Whether a byte is one of a text of hexadecimal digits.
fn is_of_hex(byte: u8) -> bool {
    byte.is_ascii_hexdigit() || matches!(byte, b' ' | b'\t' | b'\n' | b'\r')
}

// Kinds of bytes: hexadecimal text, other text, or no text.
#[derive(Clone, Copy)]
enum TextKind {
    Hex,
    Other,
    None,
}

fn text_kind(bytes: &[u8]) -> TextKind {
    let mut kind = if bytes.is_empty() {
        TextKind::None
    } else {
        TextKind::Hex
    };
    'bytes: for byte in bytes {
        if !is_of_text(*byte) {
            return TextKind::None;
        }
        if !is_of_hex(*byte) {
            kind = TextKind::Other;
        }
    }
    kind
}

// What a file without an ELF header is.
fn other_file(bytes: &[u8], else_words: &'static str) -> &'static str {
    if bytes.starts_with(b"!<arch>") {
        return ARCHIVE;
    }
    let (first, _) = bytes.split_at(LOOKED_AT.min(bytes.len()));
    match text_kind(first) {
        TextKind::Hex => HEX_WORDS,
        TextKind::Other => SOURCE,
        TextKind::None => else_words,
    }
}

// What a file of another type than an executable is, by its e_type.
fn other_type(bytes: &[u8]) -> &'static str {
    match bytes.get(E_TYPE) {
        Some(1) => RELOCATABLE,
        Some(3) => SHARED,
        _ => NOT_EXECUTABLE,
    }
}

/// What a file with this fault is, given at least a beginning of its bytes: a sentence on what to
/// do, without LF. `None` for out of memory.
pub fn file_words(fault: ElfFault, bytes: &[u8]) -> Option<&'static str> {
    match fault {
        ElfFault::Short => Some(other_file(bytes, CUT_OFF)),
        ElfFault::Magic => Some(other_file(bytes, NO_ELF)),
        ElfFault::Class => Some(WIDE),
        ElfFault::Encoding => Some(BIG_ENDIAN),
        ElfFault::Version => Some(OTHER_VERSION),
        ElfFault::FileType => Some(other_type(bytes)),
        ElfFault::Machine => Some(OTHER_PROCESSOR),
        ElfFault::Compressed => Some(COMPRESSED),
        ElfFault::HeaderSize | ElfFault::FileOverMem => Some(DAMAGED),
        ElfFault::OutsideFile => Some(CUT_OFF),
        ElfFault::PastEnd | ElfFault::Overlap => Some(BAD_SEGMENTS),
        ElfFault::TooLarge => Some(TOO_LARGE),
        ElfFault::Dynamic => Some(DYNAMIC),
        ElfFault::EntryAlign => Some(ODD_ENTRY),
        ElfFault::Memory => None,
    }
}
