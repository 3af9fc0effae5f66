//! Words of a key: which kept hart, and whether it was chosen.
ghost use Rattle.std.specs.Prelude.{◌≡◌, ◌/◌, ◌<◌, IfOk, length};
ghost use Rattle.hart_step.specs.Hart.{hart_of};
ghost use Rattle.explore_space.specs.Places.{chosen_worded, hart_worded};

use hart_step::Hart;
use std::alloc::AllocError;

/// The number of a word's hart.
pub fn hart_of_word(word: u32) -> u32
    ensures { result ≡ word / 2 }
{
    word / 2
}

/// The kept hart of a word.
pub fn hart_at(harts: &[Hart], word: u32) -> &Hart
    requires { word / 2 < length harts.now }
    ensures { hart_of result.now ≡ hart_worded harts.now word }
{
    &harts[hart_of_word(word) as usize]
}

/// Whether a word's hart was chosen.
pub fn is_chosen_word(word: u32) -> bool
    ensures { result ≡ chosen_worded word }
{
    word % 2 == 1
}

/// The word of a hart, by its number. A number from 2^31 on is answered as out of memory.
pub fn word_of_hart(number: usize, chosen: bool) -> Result<u32, AllocError>
    ensures hart { IfOk result (λ word. word / 2 ≡ number) }
    ensures chosen { IfOk result (λ word. chosen_worded word ≡ chosen) }
{
    if number > 0x7fff_ffff {
        return Err(AllocError);
    }
    let even = 2 * number as u32;
    Ok(if chosen { even + 1 } else { even })
}
