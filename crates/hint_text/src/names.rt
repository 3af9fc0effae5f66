//! The nearest name.

ghost use Rattle.std.specs.Prelude.{◌≡◌, None, IfOk, map, option_map};
ghost use Rattle.hint_text.specs.Nearest.{nearest_below};

use std::alloc::{AllocError, Allocator};
use strsim::levenshtein;

/// The first of the names with the least edit distance to a text, if that is below `bound`.
pub fn nearest<'a, A: Allocator + Copy>(
    alloc: A,
    names: &[&'a str],
    text: &str,
    bound: usize,
) -> Result<Option<&'a str>, AllocError>
    ensures { IfOk result (λ found. option_map (λ name. name.now) found
        ≡ nearest_below text.now None bound (map (λ name. name.now) names.now)) }
{
    let mut best = None;
    let mut least = bound;
    'names: for name in names {
        let count = levenshtein(alloc, text, *name)?;
        if count < least {
            best = Some(*name);
            least = count;
        }
    }
    Ok(best)
}
