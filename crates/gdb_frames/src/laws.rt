//! Laws of frames.
ghost use Rattle.std.specs.Prelude.{◌≡◌, ◌↔◌, ℕ, List, ◌∷◌, ◌++◌, false};
ghost use Rattle.std.specs.List.{All};
ghost use Rattle.gdb_frames.specs.Escapes.{unescaped};
ghost use Rattle.gdb_frames.specs.Frames.{escaped, framed, is_special};
ghost use Rattle.gdb_frames.specs.Grammar.{IsData, ReadsFrames};
ghost use Rattle.gdb_frames.specs.Items.{FrameItem, frames_of};

/// An input is read as the grammar says. So a packet is read only where a frame of its data stands.
pub fn read_as_in_the_grammar()
    ensures { (bytes : List ℕ) (items : List FrameItem)
        → (frames_of bytes ≡ items) ↔ ReadsFrames bytes items }
{}

/// A framed text is read, whatever stands behind it.
pub fn framed_is_read()
    ensures { (text rest : List ℕ)
        → frames_of (framed text ++ rest) ≡ FrameItem.whole (escaped text) ∷ frames_of rest }
{}

/// The data of a framed text has no byte that ends it.
pub fn escaped_is_data()
    ensures { (text : List ℕ) → IsData (escaped text) }
{}

/// The data of a framed text gives the text.
pub fn escapes_are_undone()
    ensures { (text : List ℕ) → unescaped (escaped text) ≡ text }
{}

/// A text without special bytes is its own data.
pub fn plain_text_is_kept()
    ensures { (text : List ℕ) → All (λ b. is_special b ≡ false) text → escaped text ≡ text }
{}
