//! The laws that tie a text to its file's image and to its listing.
ghost use Rattle.elf_write.specs.File.{file};
ghost use Rattle.asm_laws.specs.Own.{ListedIsOwn, WrittenIsOwn};

/// The file of an assembled text, where the entry is a multiple of 4, loads as its program's image;
/// the image is listed as the canonical lines of the text, and a word that spells it stands at the
/// address of each instruction.
pub fn written_is_own()
    ensures { WrittenIsOwn file }
{}

/// The listing of an assembled text has, at each instruction's place, the canonical line of the
/// word that spells it.
pub fn listed_is_own()
    ensures { ListedIsOwn }
{}
