//! The faults of files and images.
ghost use Rattle.std.specs.Prelude.{◌≡◌};
ghost use Rattle.image.specs.Fault.{fault_number};

use thiserror::Error;

/// The first check that a file or an image fails, in the order of the checks; or out of memory.
#[derive(Clone, Copy, Debug, PartialEq, Eq, Error)]
pub enum ElfFault {
    /// The file has less than 52 bytes.
    #[error("elf fault 1 Short")]
    Short,
    /// The file does not begin with 7F 45 4C 46.
    #[error("elf fault 2 Magic")]
    Magic,
    /// The file's addresses do not have 32 bits.
    #[error("elf fault 3 Class")]
    Class,
    /// The file's numbers are not little-endian.
    #[error("elf fault 4 Encoding")]
    Encoding,
    /// e_ident's version or e_version is not 1.
    #[error("elf fault 5 Version")]
    Version,
    /// The file is not an executable: e_type is not ET_EXEC.
    #[error("elf fault 6 FileType")]
    FileType,
    /// The file is not for RISC-V.
    #[error("elf fault 7 Machine")]
    Machine,
    /// The file has compressed instructions: e_flags has EF_RISCV_RVC.
    #[error("elf fault 8 Compressed")]
    Compressed,
    /// e_ehsize is not 52, or there are program headers and e_phentsize is not 32, or e_phnum is
    /// 65535.
    #[error("elf fault 9 HeaderSize")]
    HeaderSize,
    /// The program headers, or bytes of a segment, lie past the end of the file.
    #[error("elf fault 10 OutsideFile")]
    OutsideFile,
    /// A segment has more file bytes than its size.
    #[error("elf fault 11 FileOverMem")]
    FileOverMem,
    /// A segment ends past the last address.
    #[error("elf fault 12 PastEnd")]
    PastEnd,
    /// Two segments share an address.
    #[error("elf fault 13 Overlap")]
    Overlap,
    /// The sizes of all segments add up to more than `IMAGE_LIMIT`.
    #[error("elf fault 14 TooLarge")]
    TooLarge,
    /// The file needs a dynamic linker: it has a header PT_DYNAMIC or PT_INTERP.
    #[error("elf fault 15 Dynamic")]
    Dynamic,
    /// The entry is not a multiple of 4.
    #[error("elf fault 16 EntryAlign")]
    EntryAlign,
    /// Out of memory.
    #[error("out of memory")]
    Memory,
}

impl ElfFault {
    /// The number of the failed check, from 1 on; `None` for out of memory.
    pub fn number(&self) -> Option<u8>
        ensures { result ≡ fault_number self.now }
    {
        match self {
            ElfFault::Short => Some(1),
            ElfFault::Magic => Some(2),
            ElfFault::Class => Some(3),
            ElfFault::Encoding => Some(4),
            ElfFault::Version => Some(5),
            ElfFault::FileType => Some(6),
            ElfFault::Machine => Some(7),
            ElfFault::Compressed => Some(8),
            ElfFault::HeaderSize => Some(9),
            ElfFault::OutsideFile => Some(10),
            ElfFault::FileOverMem => Some(11),
            ElfFault::PastEnd => Some(12),
            ElfFault::Overlap => Some(13),
            ElfFault::TooLarge => Some(14),
            ElfFault::Dynamic => Some(15),
            ElfFault::EntryAlign => Some(16),
            ElfFault::Memory => None,
        }
    }
}
