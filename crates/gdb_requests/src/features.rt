//! What GDB says that it can do.
ghost use Rattle.std.specs.Prelude.{◌≡◌};
ghost use Rattle.gdb_requests.specs.Features.{announces, has_feature};

use crate::operands::behind_first;
use crate::words::is_word;
use text_items::split_at_byte;

// Whether a feature is among those of a list with semicolons between them.
fn has_feature(list: &[u8], feature: &str) -> bool
    ensures { result ≡ has_feature feature.now list.now }
{
    let mut rest = list;
    'parts: loop {
        let (part, from) = split_at_byte(rest, b';');
        if is_word(part, feature) {
            return true;
        }
        if from.is_empty() {
            return false;
        }
        rest = behind_first(from);
    }
}

/// Whether GDB announces a feature in what follows `qSupported`: a colon and a list.
pub fn announces(text: &[u8], feature: &str) -> bool
    ensures { result ≡ announces feature.now text.now }
{
    match text {
        [b':', list @ ..] => has_feature(list, feature),
        _ => false,
    }
}
