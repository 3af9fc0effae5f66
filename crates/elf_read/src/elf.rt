//! The constants of ELF files, under the standard's names.
//!
//! System V ELF, "ELF Header", "Program Header", "Sections", "Symbol Table"; those of RISC-V are in
//! the RISC-V ELF psABI, "File Header". A name that begins with `E_`, `P_`, `SH_` or `ST_` is the
//! offset of a field in its header, in bytes.

/// The first four bytes of a file, as a little-endian number.
pub const MAGIC: u32 = 0x464c_457f;
/// The offset of the file's class.
pub const EI_CLASS: usize = 4;
/// The offset of the byte order.
pub const EI_DATA: usize = 5;
/// The offset of the version in e_ident.
pub const EI_VERSION: usize = 6;
/// Addresses and offsets have 32 bits.
pub const ELFCLASS32: u8 = 1;
/// Numbers are little-endian.
pub const ELFDATA2LSB: u8 = 1;
/// The only version.
pub const EV_CURRENT: u8 = 1;

pub const E_TYPE: usize = 16;

pub const E_MACHINE: usize = 18;

pub const E_VERSION: usize = 20;

pub const E_ENTRY: usize = 24;

pub const E_PHOFF: usize = 28;

pub const E_SHOFF: usize = 32;

pub const E_FLAGS: usize = 36;

pub const E_EHSIZE: usize = 40;

pub const E_PHENTSIZE: usize = 42;

pub const E_PHNUM: usize = 44;

pub const E_SHENTSIZE: usize = 46;

pub const E_SHNUM: usize = 48;

/// An executable file.
pub const ET_EXEC: u16 = 2;
/// RISC-V.
pub const EM_RISCV: u16 = 243;
/// The bit of e_flags for compressed instructions.
pub const EF_RISCV_RVC: u32 = 1;
/// The e_phnum of a file whose count of program headers is stored elsewhere.
pub const PN_XNUM: u16 = 0xffff;

/// The size of the file's header, in bytes.
pub const HEADER_SIZE: u16 = 52;
/// The size of a program header, in bytes.
pub const PROGRAM_HEADER_SIZE: u16 = 32;
/// The size of a section header, in bytes.
pub const SECTION_HEADER_SIZE: u16 = 40;
/// The size of a symbol, in bytes.
pub const SYMBOL_SIZE: u32 = 16;

pub const P_TYPE: usize = 0;

pub const P_OFFSET: usize = 4;

pub const P_VADDR: usize = 8;

pub const P_FILESZ: usize = 16;

pub const P_MEMSZ: usize = 20;

pub const P_FLAGS: usize = 24;

/// A loadable segment.
pub const PT_LOAD: u32 = 1;
/// Dynamic linking information.
pub const PT_DYNAMIC: u32 = 2;
/// The path of an interpreter.
pub const PT_INTERP: u32 = 3;

pub const SH_TYPE: usize = 4;

pub const SH_OFFSET: usize = 16;

pub const SH_SIZE: usize = 20;

pub const SH_LINK: usize = 24;

pub const SH_ENTSIZE: usize = 36;

/// Bytes defined by the program.
pub const SHT_PROGBITS: u32 = 1;
/// A symbol table.
pub const SHT_SYMTAB: u32 = 2;
/// A string table.
pub const SHT_STRTAB: u32 = 3;
/// Zero bytes that take no space in the file.
pub const SHT_NOBITS: u32 = 8;
/// A section that is writable in memory.
pub const SHF_WRITE: u32 = 1;
/// A section that occupies memory.
pub const SHF_ALLOC: u32 = 2;
/// A section of instructions.
pub const SHF_EXECINSTR: u32 = 4;

pub const ST_NAME: usize = 0;

pub const ST_VALUE: usize = 4;

pub const ST_INFO: usize = 12;

pub const ST_SHNDX: usize = 14;

/// The binding of a global symbol, in the high half of st_info.
pub const STB_GLOBAL: u8 = 1;
/// A symbol whose type is not said, in the low half of st_info.
pub const STT_NOTYPE: u8 = 0;
/// A symbol of data.
pub const STT_OBJECT: u8 = 1;
/// A symbol of a function.
pub const STT_FUNC: u8 = 2;
/// A symbol of a section.
pub const STT_SECTION: u8 = 3;
/// The name of a source file.
pub const STT_FILE: u8 = 4;
/// The st_shndx of a symbol whose value is absolute.
pub const SHN_ABS: u16 = 0xfff1;
