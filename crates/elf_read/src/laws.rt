//! Law: the code's constants of ELF files equal those of the definitions.
ghost use Rattle.std.specs.Prelude.{◌≡◌};
ghost use Rattle.elf_read.specs.Codes as standard;
ghost use Rattle.elf_read.specs.declared.elf.TheConstants as code;

/// Each constant equals the definitions', which have the standard's numerals.
pub fn numbers_are_the_standards()
    ensures first_bytes { (code.MAGIC ≡ standard.MAGIC) × (code.EI_CLASS ≡ standard.EI_CLASS) ×
        (code.EI_DATA ≡ standard.EI_DATA) × (code.EI_VERSION ≡ standard.EI_VERSION) ×
        (code.ELFCLASS32 ≡ standard.ELFCLASS32) × (code.ELFDATA2LSB ≡ standard.ELFDATA2LSB) ×
        (code.EV_CURRENT ≡ standard.EV_CURRENT) }
    ensures header { (code.E_TYPE ≡ standard.E_TYPE) × (code.E_MACHINE ≡ standard.E_MACHINE) ×
        (code.E_VERSION ≡ standard.E_VERSION) × (code.E_ENTRY ≡ standard.E_ENTRY) ×
        (code.E_PHOFF ≡ standard.E_PHOFF) × (code.E_SHOFF ≡ standard.E_SHOFF) ×
        (code.E_FLAGS ≡ standard.E_FLAGS) × (code.E_EHSIZE ≡ standard.E_EHSIZE) ×
        (code.E_PHENTSIZE ≡ standard.E_PHENTSIZE) × (code.E_PHNUM ≡ standard.E_PHNUM) ×
        (code.E_SHENTSIZE ≡ standard.E_SHENTSIZE) × (code.E_SHNUM ≡ standard.E_SHNUM) }
    ensures told { (code.ET_EXEC ≡ standard.ET_EXEC) × (code.EM_RISCV ≡ standard.EM_RISCV) ×
        (code.EF_RISCV_RVC ≡ standard.EF_RISCV_RVC) × (code.PN_XNUM ≡ standard.PN_XNUM) }
    ensures sizes { (code.HEADER_SIZE ≡ standard.HEADER_SIZE) ×
        (code.PROGRAM_HEADER_SIZE ≡ standard.PROGRAM_HEADER_SIZE) ×
        (code.SECTION_HEADER_SIZE ≡ standard.SECTION_HEADER_SIZE) ×
        (code.SYMBOL_SIZE ≡ standard.SYMBOL_SIZE) }
    ensures program_header { (code.P_TYPE ≡ standard.P_TYPE) × (code.P_OFFSET ≡ standard.P_OFFSET) ×
        (code.P_VADDR ≡ standard.P_VADDR) × (code.P_FILESZ ≡ standard.P_FILESZ) ×
        (code.P_MEMSZ ≡ standard.P_MEMSZ) × (code.P_FLAGS ≡ standard.P_FLAGS) }
    ensures segments { (code.PT_LOAD ≡ standard.PT_LOAD) × (code.PT_DYNAMIC ≡ standard.PT_DYNAMIC) ×
        (code.PT_INTERP ≡ standard.PT_INTERP) }
    ensures section_header { (code.SH_TYPE ≡ standard.SH_TYPE) × (code.SH_OFFSET ≡ standard.SH_OFFSET) ×
        (code.SH_SIZE ≡ standard.SH_SIZE) × (code.SH_LINK ≡ standard.SH_LINK) ×
        (code.SH_ENTSIZE ≡ standard.SH_ENTSIZE) }
    ensures sections { (code.SHT_PROGBITS ≡ standard.SHT_PROGBITS) ×
        (code.SHT_SYMTAB ≡ standard.SHT_SYMTAB) × (code.SHT_STRTAB ≡ standard.SHT_STRTAB) ×
        (code.SHT_NOBITS ≡ standard.SHT_NOBITS) × (code.SHF_WRITE ≡ standard.SHF_WRITE) ×
        (code.SHF_ALLOC ≡ standard.SHF_ALLOC) ×
        (code.SHF_EXECINSTR ≡ standard.SHF_EXECINSTR) }
    ensures symbol { (code.ST_NAME ≡ standard.ST_NAME) × (code.ST_VALUE ≡ standard.ST_VALUE) ×
        (code.ST_INFO ≡ standard.ST_INFO) × (code.ST_SHNDX ≡ standard.ST_SHNDX) ×
        (code.STB_GLOBAL ≡ standard.STB_GLOBAL) }
    ensures symbols { (code.STT_NOTYPE ≡ standard.STT_NOTYPE) ×
        (code.STT_OBJECT ≡ standard.STT_OBJECT) × (code.STT_FUNC ≡ standard.STT_FUNC) ×
        (code.STT_SECTION ≡ standard.STT_SECTION) × (code.STT_FILE ≡ standard.STT_FILE) ×
        (code.SHN_ABS ≡ standard.SHN_ABS) }
{}
