//! One step of a hart over words.
ghost use Rattle.std.specs.Prelude.{◌≡◌, ◌<◌, OnOk, length};
ghost use Rattle.mem_store.specs.Image.{image_memory};
ghost use Rattle.hart_reservations.specs.Marks.{mark_at};
ghost use Rattle.hart_step.specs.Hart.{hart_of};
ghost use Rattle.bank_laws.specs.Runs.{word_found};
ghost use Rattle.bank_laws.specs.Table.{table};
ghost use Rattle.bank_step.specs.Told.{told_word};
ghost use Rattle.explore_sites.specs.Cells.{AreCanonical, words_shown};
ghost use Rattle.explore_sites.specs.Sites.{StepsTo};

use crate::cell::Cell;
use crate::marks::{clear_mark, end_marks, holds_mark, set_mark};
use crate::words::{put_word, word_at};
use bank_step::{ToldWords, Word, needed_word, planned_touch, settle, settle_store};
use hart_step::{AccessKind, Hart};
use image::Image;
use std::alloc::{AllocError, Allocator};

// A word with its bytes, where there is a word.
fn told<A: Allocator>(image: &Image<A>, cells: &[Cell], address: Option<u32>) -> Option<Word>
    ensures { result ≡ told_word address (word_found address (words_shown image.now cells.now)) }
{
    match address {
        Some(address) => Some(Word {
            address,
            bytes: word_at(image, cells, address),
        }),
        None => None,
    }
}

/// A step of hart `id`, where the words are an image's but for the cells'. Only want of memory
/// refuses it.
pub fn step_site<A: Allocator>(
    image: &Image<A>,
    hart: &mut Hart,
    id: usize,
    marks: &mut [Option<u32>],
    cells: &mut Vec<Cell, A>,
    refuse: bool,
) -> Result<(), AllocError>
    requires { id < length marks.old }
    ensures steps { OnOk result (StepsTo (table (image_memory image.now)) id refuse (hart_of hart.old) (hart_of hart.new)
        (words_shown image.now cells.old.items) (words_shown image.now cells.new.items) (mark_at marks.old) (mark_at marks.new)) }
    ensures len { length marks.new ≡ length marks.old }
    ensures canonical { OnOk result (AreCanonical image.now cells.old.items → AreCanonical image.now cells.new.items) }
{
    let code = told(image, cells, needed_word(hart, image));
    let Some(touch) = planned_touch(hart, image, code) else {
        let words = ToldWords {
            code,
            touched: None,
        };
        settle(hart, image, words, false);
        return Ok(());
    };
    let touched = Word {
        address: touch.word,
        bytes: word_at(image, cells, touch.word),
    };
    let words = ToldWords {
        code,
        touched: Some(touched),
    };
    match touch.kind {
        AccessKind::Load => settle(hart, image, words, false),
        AccessKind::LoadReserved => {
            settle(hart, image, words, false);
            set_mark(marks, id, touch.word);
        }
        AccessKind::Store | AccessKind::Amo => {
            let bytes = settle_store(hart, image, code, touched, false);
            put_word(image, cells, touch.word, bytes)?;
            end_marks(marks, id, touch.word);
        }
        AccessKind::StoreConditional => {
            if !refuse && holds_mark(marks, id, touch.word) {
                let bytes = settle_store(hart, image, code, touched, true);
                put_word(image, cells, touch.word, bytes)?;
                end_marks(marks, id, touch.word);
            } else {
                settle(hart, image, words, false);
            }
            clear_mark(marks, id);
        }
    }
    Ok(())
}
