//! Parses how many worlds an exploration may look at.

ghost use Rattle.std.specs.Prelude.{◌≡◌};
ghost use Rattle.cli_values.specs.Explorations.{worlds_of};

use cli_args::read_number;

/// The form of `--worlds`, for its fault.
pub const WORLDS: &str =
    "--worlds takes a decimal number from 1 to 4294967295, as --worlds 1000000";

/// The most worlds that are looked at: a million by default. `None` exactly if the text isn't a
/// decimal number from 1 to 2^32 - 1.
pub fn read_worlds(text: Option<&str>) -> Option<u64>
    ensures { result ≡ worlds_of text.entry }
{
    let Some(text) = text else {
        return Some(1_000_000);
    };
    match read_number(text, u64::from(u32::MAX)) {
        Ok(0) | Err(_) => None,
        Ok(worlds) => Some(worlds),
    }
}
