//! Law of written files.
ghost use Rattle.std.specs.Prelude.{◌≡◌, ℕ, ◌<◌, ◌^◌, List};
ghost use Rattle.asm_assemble.specs.Program.{ProgramValue, IsWithinLimit};
ghost use Rattle.elf_write.specs.File.{file_with, program_image};
ghost use Rattle.elf_read.specs.File.{loaded_image};

/// A written file loads as its program, whatever its sections hold.
pub fn written_files_load()
    ensures { (p : ProgramValue) (sections : ℕ) (behind : List ℕ) → IsWithinLimit p.text p.bytes p.zeros → p.entry < 2 ^ 32
        → loaded_image (file_with p sections behind) ≡ program_image p }
{}
