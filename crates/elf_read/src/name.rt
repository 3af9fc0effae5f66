//! Names in a string table.
ghost use Rattle.std.specs.Prelude.{◌≡◌, ◌==◌, position, MatchOption, None, Some, drop};
ghost use Rattle.elf_read.specs.Name.{name_in};

/// The name at an offset, if a zero byte ends it and it is UTF-8. System V ELF, "String Table".
#[tactic(auto, using(crate::proofs::NameLemmas::is_text, crate::proofs::NameLemmas::is_no_text), unfolding(crate::specs::Name::name_in))]
pub fn name_at(names: &[u8], place: usize) -> Option<&str>
    ensures { MatchOption result (name_in (drop place names.now) ≡ None)
        (λ name. name_in (drop place names.now) ≡ Some name.now) }
{
    let (_, rest) = names.split_at(names.len().min(place));
    let len = first_zero(rest)?;
    let (name, _) = rest.split_at(len);
    str::from_utf8(name).ok()
}

// The number of bytes before the first zero byte.
fn first_zero(bytes: &[u8]) -> Option<usize>
    ensures { result ≡ position (λ b. b == 0) bytes.now }
{
    bytes.iter().position(|b| *b == 0)
}
