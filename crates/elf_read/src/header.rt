//! The header of an ELF file.
ghost use Rattle.std.specs.Prelude.{◌≡◌, ◌≤◌, length, IfNone};
ghost use Rattle.elf_read.specs.Header.{header_fault};
ghost use Rattle.elf_read.specs.Codes.{HEADER_SIZE};

use crate::elf::{
    E_EHSIZE, E_FLAGS, E_MACHINE, E_PHENTSIZE, E_PHNUM, E_TYPE, E_VERSION, EF_RISCV_RVC, EI_CLASS,
    EI_DATA, EI_VERSION, ELFCLASS32, ELFDATA2LSB, EM_RISCV, ET_EXEC, EV_CURRENT, HEADER_SIZE,
    MAGIC, PN_XNUM, PROGRAM_HEADER_SIZE,
};
use crate::number::{half_at, word_at};
use image::ElfFault;

/// The first check of the header that fails. On `None` the file has a whole header.
#[tactic(auto, unfolding(crate::specs::Header::header_fault))]
pub fn check_header(bytes: &[u8]) -> Option<ElfFault>
    ensures fault { result ≡ header_fault bytes.now }
    ensures long { IfNone result (HEADER_SIZE ≤ length bytes.now) }
{
    if bytes.len() < HEADER_SIZE as usize {
        Some(ElfFault::Short)
    } else if word_at(bytes, 0) != MAGIC {
        Some(ElfFault::Magic)
    } else if bytes[EI_CLASS] != ELFCLASS32 {
        Some(ElfFault::Class)
    } else if bytes[EI_DATA] != ELFDATA2LSB {
        Some(ElfFault::Encoding)
    } else if bytes[EI_VERSION] != EV_CURRENT || word_at(bytes, E_VERSION) != EV_CURRENT as u32 {
        Some(ElfFault::Version)
    } else if half_at(bytes, E_TYPE) != ET_EXEC {
        Some(ElfFault::FileType)
    } else if half_at(bytes, E_MACHINE) != EM_RISCV {
        Some(ElfFault::Machine)
    } else if word_at(bytes, E_FLAGS) % 2 == EF_RISCV_RVC {
        Some(ElfFault::Compressed)
    } else if half_at(bytes, E_EHSIZE) != HEADER_SIZE
        || (half_at(bytes, E_PHNUM) != 0 && half_at(bytes, E_PHENTSIZE) != PROGRAM_HEADER_SIZE)
        || half_at(bytes, E_PHNUM) == PN_XNUM
    {
        Some(ElfFault::HeaderSize)
    } else {
        None
    }
}
