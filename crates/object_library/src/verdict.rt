//! The verdict of a judge.

ghost use Rattle.object_library.specs.Names.{verdict_name};

use std::fmt;

/// Whether a rule holds. Displayed as `kept` or `broken`.
#[derive(Clone, Copy, Debug, PartialEq, Eq, Hash)]
pub enum Verdict {
    /// Each clause of the rule holds.
    Kept,
    /// Some clause of it does not hold.
    Broken,
}

impl fmt::Display for Verdict {
    ghost use Rattle.std.specs.Prelude.{Some};

    ghost output = { λ v. Some (verdict_name v) };

    fn fmt<W: fmt::Write>(&self, f: &mut fmt::Formatter<W>) -> fmt::Result {
        let name = match self {
            Verdict::Kept => "kept",
            Verdict::Broken => "broken",
        };
        f.write_str(name)
    }
}
