//! The number of choices of a text.
ghost use Rattle.std.specs.Prelude.{◌≡◌, ◌≢◌, Err, IfOk, IfErr};
ghost use Rattle.sched_text.specs.Reading.{choices_read};
ghost use Rattle.cmd_trace.specs.Left.{SpellsSoMany};

use sched_text::{ChoiceFault, read_run};
use text_items::next_item;

/// The number of choices that a text spells, or the fault of its first bad item. `Memory` only if
/// they are more than `u64::MAX`: no memory holds such a text.
pub fn count_choices(text: &[u8], harts: u32) -> Result<u64, ChoiceFault>
    ensures counted { IfOk result (λ count. SpellsSoMany harts text.now count) }
    ensures refused { IfErr result (λ fault. fault ≢ ChoiceFault.Memory
        → choices_read harts text.now ≡ Err fault) }
{
    let mut count = 0u64;
    let mut from = 0;
    'items: while let Some((begin, end)) = next_item(text, from) {
        let named = match read_run(&text[begin..end], begin, harts) {
            Ok(named) => named,
            Err(fault) => return Err(fault),
        };
        let Some(more) = count.checked_add(u64::from(named.count)) else {
            return Err(ChoiceFault::Memory);
        };
        count = more;
        from = end;
    }
    Ok(count)
}
