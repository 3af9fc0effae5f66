//! Laws of the table's steps, and of cells.
ghost use Rattle.std.specs.Prelude.{◌≡◌, ◌⊎◌, List};
ghost use Rattle.image.specs.Image.{ImageValue};
ghost use Rattle.mem_store.specs.Memory.{Memory};
ghost use Rattle.explore_sites.specs.Cells.{AreCanonical, WordsDiffer, cell_words, words_shown};
ghost use Rattle.explore_sites.specs.Sites.{StepsAsMachine};
ghost use Rattle.explore_sites.specs.declared.cell.Cell.{Cell as CellValue};

/// Where a hart, words and reservations are those of a site whose memory comes from an image's,
/// what the image's table makes of them is what the machine's step makes of the site.
pub fn steps_are_those_of_the_machine()
    ensures { (m : Memory) → StepsAsMachine m }
{}

/// Canonical cells are the same, or there is a word that they don't show alike.
pub fn canonical_cells_tell()
    ensures { (image : ImageValue) (one other : List CellValue) → AreCanonical image one → AreCanonical image other
        → (cell_words one ≡ cell_words other) ⊎ WordsDiffer (words_shown image one) (words_shown image other) }
{}
