//! The sets of accesses that a fence orders.

ghost use Rattle.std.specs.Prelude.{◌≡◌, Some};
ghost use Rattle.isa_names.specs.Names.{set_name};

use isa_table::FenceSet;
use std::fmt;

/// The letters of a set, in the order `iorw`: device input, device output, read, write. The empty
/// set has none.
#[tactic(auto, unfolding(crate::specs::Names::set_name))]
pub fn accesses_name(set: FenceSet) -> &'static str
    ensures { result.now ≡ set_name set }
{
    match set.bits() {
        0 => "",
        1 => "w",
        2 => "r",
        3 => "rw",
        4 => "o",
        5 => "ow",
        6 => "or",
        7 => "orw",
        8 => "i",
        9 => "iw",
        10 => "ir",
        11 => "irw",
        12 => "io",
        13 => "iow",
        14 => "ior",
        15 => "iorw",
        _ => unreachable!(),
    }
}

/// A set of accesses, displayed as its letters.
#[derive(Clone, Copy)]
pub struct FenceAccesses(pub FenceSet);

impl fmt::Display for FenceAccesses {
    ghost output = { λ s. Some (set_name s.0) };

    fn fmt<W: fmt::Write>(&self, f: &mut fmt::Formatter<W>) -> fmt::Result {
        f.write_str(accesses_name(self.0))
    }
}
