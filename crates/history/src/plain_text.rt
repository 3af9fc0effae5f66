//! The text of a list of choices as a history.
ghost use Rattle.std.specs.Prelude.{◌≡◌, Some, IfOk, map, string_bytes};
ghost use Rattle.history.specs.Printing.{entry_text, history_text};
ghost use Rattle.history.specs.Plain.{plain_entry};

use machine::Choice;
use std::alloc::{AllocError, Allocator};
use std::fmt;

// A choice, shown as the item of its entry.
#[derive(Clone, Copy)]
struct ChoiceItem(Choice);

impl fmt::Display for ChoiceItem {
    ghost output = { λ item. Some (entry_text (plain_entry item.0)) };

    fn fmt<W: fmt::Write>(&self, f: &mut fmt::Formatter<W>) -> fmt::Result {
        let hart = self.0.hart;
        if self.0.refuse {
            write!(f, "{hart}+0!")
        } else {
            write!(f, "{hart}+0")
        }
    }
}

/// The text of `history_of` these choices, made without a list of entries.
pub fn choices_text<A: Allocator + Copy>(
    alloc: A,
    choices: &[Choice],
) -> Result<String<A>, AllocError>
    ensures { IfOk result (λ text. string_bytes text ≡ history_text (map plain_entry choices.now)) }
{
    let mut text = String::new(alloc);
    let Some((first, rest)) = choices.split_first() else {
        return Ok(text);
    };
    let item = ChoiceItem(*first);
    write!(text, "{item}")?;
    'choices: for choice in rest {
        let item = ChoiceItem(*choice);
        write!(text, " {item}")?;
    }
    writeln!(text)?;
    Ok(text)
}
