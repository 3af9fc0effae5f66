//! The law of written files' fields.
ghost use Rattle.elf_write.specs.File.{file};
ghost use Rattle.elf_laws.specs.Fields.{FieldsFixBytes, WrittenHasFields};

/// In the file that is written of a program within the limit, each field of its header, its program
/// headers, its symbols and its section headers is at its place, with its width and its value; so
/// are text, data and names, and zero bytes between them.
pub fn written_fields()
    ensures { WrittenHasFields file }
{}

/// Two files with the fields of one program are the same, byte for byte.
pub fn fields_fix_the_bytes()
    ensures { FieldsFixBytes }
{}
