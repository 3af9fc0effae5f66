//! Parses how many seconds a campaign may take.

ghost use Rattle.std.specs.Prelude.{◌≡◌};
ghost use Rattle.cli_values.specs.Seconds.{seconds_of};

use cli_args::read_number;

/// The form of `--seconds`, for its fault.
pub const SECONDS: &str = "--seconds takes a decimal number from 1 to 2^32 - 1, as --seconds 60";

/// How many seconds a campaign may take. `None` exactly if the text isn't a decimal number from 1
/// to 2^32 - 1.
pub fn read_seconds(text: &str) -> Option<u64>
    ensures { result ≡ seconds_of text.now }
{
    match read_number(text, u64::from(u32::MAX)) {
        Ok(0) | Err(_) => None,
        Ok(seconds) => Some(seconds),
    }
}
