//! Reservations that can be compared: for each hart the word that it has reserved.
ghost use Rattle.std.specs.Prelude.{◌≡◌, ◌<◌, ℕ, length};
ghost use Rattle.hart_reservations.specs.Marks.{mark_at, mark_after, with_mark, without_mark, names, ended};

/// Reserves a word for a hart, in place of an earlier one.
pub fn set_mark(marks: &mut [Option<u32>], hart: usize, word: u32)
    requires { hart < length marks.old }
    ensures set { mark_at marks.new ≡ with_mark (mark_at marks.old) hart word }
    ensures len { length marks.new ≡ length marks.old }
{
    marks[hart] = Some(word);
}

/// Ends a hart's reservation.
pub fn clear_mark(marks: &mut [Option<u32>], hart: usize)
    requires { hart < length marks.old }
    ensures cleared { mark_at marks.new ≡ without_mark (mark_at marks.old) hart }
    ensures len { length marks.new ≡ length marks.old }
{
    marks[hart] = None;
}

/// Whether a hart's reservation names this word.
pub fn holds_mark(marks: &[Option<u32>], hart: usize, word: u32) -> bool
    requires { hart < length marks.now }
    ensures { result ≡ names (mark_at marks.now hart) word }
{
    match marks[hart] {
        Some(held) => held == word,
        None => false,
    }
}

// Ends the reservations of a word, but for one hart's.
fn end_each(marks: &mut [Option<u32>], hart: usize, word: u32)
    ensures ended { (k : ℕ) → mark_at marks.new k ≡ ended (mark_at marks.old) hart word k }
    ensures len { length marks.new ≡ length marks.old }
{
    for (i, held) in marks.iter_mut().enumerate() {
        if i != hart && *held == Some(word) {
            *held = None;
        }
    }
}

/// Ends the reservations of a word, but for one hart's.
pub fn end_marks(marks: &mut [Option<u32>], hart: usize, word: u32)
    ensures ended { mark_at marks.new ≡ ended (mark_at marks.old) hart word }
    ensures len { length marks.new ≡ length marks.old }
{
    end_each(marks, hart, word);
}
