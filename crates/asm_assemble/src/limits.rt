//! Laws: the base and the size limit of programs.
ghost use Rattle.std.specs.Prelude.{◌≡◌};
ghost use Rattle.asm_assemble.specs.Program.{text_start, program_limit};
ghost use Rattle.asm_assemble.specs.declared.program.TheConstants.{TEXT_BASE, PROGRAM_LIMIT};

/// The text begins at 0x00010000, and text and data segment have at most 2^24 bytes together: the
/// code's numbers equal the definitions'.
pub fn programs_begin_and_end()
    ensures start { TEXT_BASE ≡ text_start }
    ensures limit { PROGRAM_LIMIT ≡ program_limit }
    ensures numerals { (text_start ≡ 0x0001_0000) × (program_limit ≡ 0x0100_0000) }
{}
