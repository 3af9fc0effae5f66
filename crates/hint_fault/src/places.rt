//! Places in a program: by the label before them, and by their segment.

ghost use Rattle.std.specs.Prelude.{◌≡◌, option_map};
ghost use Rattle.hint_fault.specs.Places.{segment_with};

use elf_read::{Symbol, nearest_label};
use image::{Rights, Segment};
use isa_disasm::Line;
use isa_names::Word;
use std::alloc::{AllocError, Allocator};

/// The segment that has an address.
pub fn segment_at<A: Allocator>(segments: &[Segment<A>], address: u32) -> Option<&Segment<A>>
    ensures { option_map (λ s. s.now) result ≡ segment_with segments.now address }
{
    'segments: for segment in segments {
        if segment.base <= address && address - segment.base < segment.size {
            return Some(segment);
        }
    }
    None
}

// Appends an address as the label before it and the offset in bytes, `wait+8`; as digits if there
// is no label.
fn push_place<A: Allocator>(
    text: &mut String<A>,
    symbols: &[Symbol<A>],
    address: u32,
) -> Result<(), AllocError> {
    let Some(symbol) = nearest_label(symbols, address) else {
        let shown = Word(address);
        return write!(text, "{shown}");
    };
    text.push_str(symbol.name.as_str())?;
    match address.saturating_sub(symbol.address) {
        0 => Ok(()),
        distance => write!(text, "+{distance}"),
    }
}

/// Appends the place of a hart, as `hart 0 at 00010004, wait+8`: with the label before it, if there
/// is one.
pub fn push_standing<A: Allocator>(
    text: &mut String<A>,
    symbols: &[Symbol<A>],
    number: usize,
    pc: u32,
) -> Result<(), AllocError> {
    let shown = Word(pc);
    write!(text, "hart {number} at {shown}, ")?;
    push_place(text, symbols, pc)
}

/// Appends the instruction at an address.
pub fn push_instruction<A: Allocator>(
    text: &mut String<A>,
    address: u32,
    word: u32,
) -> Result<(), AllocError> {
    let line = Line { address, word };
    write!(text, ": {line}")
}

/// Rights as `rwx`, with a dash for each missing one.
pub(crate) fn rwx(rights: Rights) -> &'static str {
    let (read, write) = (rights.grants(Rights::READ), rights.grants(Rights::WRITE));
    match (read, write, rights.grants(Rights::EXECUTE)) {
        (false, false, false) => "---",
        (false, false, true) => "--x",
        (false, true, false) => "-w-",
        (false, true, true) => "-wx",
        (true, false, false) => "r--",
        (true, false, true) => "r-x",
        (true, true, false) => "rw-",
        (true, true, true) => "rwx",
    }
}
