//! Parses whether store-conditionals are refused that could succeed.
ghost use Rattle.cmd_explore.specs.Refusals.{MeansScRefusals};

use explore_space::ScRefusals;

/// Whether store-conditionals that could succeed are refused too: they are by default, and not by
/// `never`. `None` exactly for any other text.
pub fn read_refusals(text: Option<&str>) -> Option<ScRefusals>
    ensures { MeansScRefusals text.entry result }
{
    let Some(text) = text else {
        return Some(ScRefusals::Also);
    };
    if text.as_bytes() == "never".as_bytes() {
        return Some(ScRefusals::Never);
    }
    None
}
