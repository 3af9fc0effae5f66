//! The rule of one adopt-commit object, wherever it stands. An object is 29 instructions, and a
//! record of 16 bytes for each hart: AdoptCommit is one object between a hart's start and its exit,
//! Rounds four of them one after another.

ghost use Rattle.std.specs.Prelude.{ℕ, ◌*◌, ◌<◌, ◌≤◌};
ghost use Rattle.object_adopt.specs.Passage.{HasObject, InEveryPassage, IsBounded, KeepsPassage};
ghost use Rattle.object_library.specs.Images.{adopt_words, rounds_words};

/// Harts that enter an object, each with a value, keep the rule of adopt-commit where they come out
/// of it: wherever its first instruction and its records stand, for 1 to 32 harts, whatever they
/// bring and however they are scheduled. Each of n takes at most 14 + 14n steps there.
pub fn object_in_every_passage()
    ensures kept { InEveryPassage KeepsPassage }
    ensures bounded { InEveryPassage IsBounded }
{}

/// AdoptCommit has one object, from its second instruction on, for as many harts as it has records.
/// Rounds has four, which share their instructions, from the third on, and have 512 bytes of
/// records each.
pub fn images_have_objects()
    ensures one { (slots n : ℕ) → n ≤ slots → slots ≤ 32 → HasObject adopt_words (16 * slots) 1 0 n }
    ensures four { (round n : ℕ) → round < 4 → n ≤ 32 → HasObject rounds_words 2048 2 (128 * round) n }
{}
