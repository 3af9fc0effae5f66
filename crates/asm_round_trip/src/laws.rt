//! Law of listings, parser and assembler.
ghost use Rattle.std.specs.Prelude.{◌≡◌, ◌<◌, ◌≤◌, ◌^◌, ℕ, List, [], ◌∷◌, length, All, Ok};
ghost use Rattle.asm_assemble.specs.Sources.{assembled_texts};
ghost use Rattle.asm_assemble.specs.Program.{text_start};
ghost use Rattle.isa_disasm.specs.Listing.{listing};
ghost use Rattle.asm_round_trip.specs.TextAlone.{text_alone};

/// The listing of any bytes at `TEXT_BASE`, as the only source, assembles to a program of exactly
/// these bytes, if a program may have as many. At another base an absolute target would be another
/// offset.
pub fn a_listing_is_its_source()
    ensures { (bytes : List ℕ) → All (λ b. b < 2 ^ 8) bytes → length bytes ≤ 2 ^ 24
        → assembled_texts (listing text_start bytes ∷ []) ≡ Ok (text_alone bytes) }
{}
