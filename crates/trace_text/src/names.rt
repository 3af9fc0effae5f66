//! Names that stand in a trace.

ghost use Rattle.std.specs.Prelude.{◌≡◌};
ghost use Rattle.trace_text.specs.Values.{cause_text, kind_name};

use hart_step::{AccessKind, Cause};

/// The name of what an instruction does with the bytes that it accesses.
#[tactic(auto, unfolding(crate::specs::Values::kind_name))]
pub fn kind_name(kind: AccessKind) -> &'static str
    ensures { result.now ≡ kind_name kind }
{
    match kind {
        AccessKind::Load => "load",
        AccessKind::Store => "store",
        AccessKind::LoadReserved => "load-reserved",
        AccessKind::StoreConditional => "store-conditional",
        AccessKind::Amo => "amo",
    }
}

/// The name of a cause, as the lines of harts' ends have it.
#[tactic(auto, unfolding(crate::specs::Values::cause_text))]
pub fn cause_name(cause: Cause) -> &'static str
    ensures { result.now ≡ cause_text cause }
{
    match cause {
        Cause::FetchAccess => "FetchAccess",
        Cause::Illegal => "Illegal",
        Cause::LoadMisaligned => "LoadMisaligned",
        Cause::LoadAccess => "LoadAccess",
        Cause::StoreMisaligned => "StoreMisaligned",
        Cause::StoreAccess => "StoreAccess",
        Cause::JumpMisaligned => "JumpMisaligned",
        Cause::BadCall => "BadCall",
        Cause::Break => "Break",
    }
}
