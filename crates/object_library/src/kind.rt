//! The kinds of objects.

ghost use Rattle.std.specs.Prelude.{◌≡◌, ◌↔◌, Some};
ghost use Rattle.object_library.specs.Names.{object_name};

use crate::entry::entry_of;

/// A consensus object: each hart that runs its program exits with one of the harts' inputs.
#[derive(Clone, Copy, PartialEq, Eq)]
pub enum Kind {
    /// Consensus of two harts by `amoswap.w`.
    Swap,
    /// Consensus of two harts by `amoadd.w`.
    Add,
    /// Consensus of any number of harts by `lr.w` and `sc.w`.
    LrSc,
    /// Adopt-commit of any number of harts by loads and stores.
    AdoptCommit,
    /// Four adopt-commit objects in succession, by loads and stores.
    Rounds,
}

/// The names of all kinds, as help and error texts list them.
pub const KIND_NAMES: &str = "swap, add, lrsc, adopt or rounds";

impl Kind {
    /// All kinds, in order.
    pub const ALL: [Kind; 5] = [
        Kind::Swap,
        Kind::Add,
        Kind::LrSc,
        Kind::AdoptCommit,
        Kind::Rounds,
    ];

    /// The kind's name on the command line.
    pub fn name(self) -> &'static str
        ensures { result.now ≡ object_name self }
    {
        entry_of(self).name
    }

    /// The kind with this name, or `None` if there is none.
    pub fn of_name(name: &str) -> Option<Kind>
        ensures { (kind : Kind) → (result ≡ Some kind) ↔ (name.now ≡ object_name kind) }
    {
        match name {
            "swap" => Some(Kind::Swap),
            "add" => Some(Kind::Add),
            "lrsc" => Some(Kind::LrSc),
            "adopt" => Some(Kind::AdoptCommit),
            "rounds" => Some(Kind::Rounds),
            _ => None,
        }
    }
}
