//! What is asked of every schedule.
use crate::meant::ScRefusals;
use crate::own_bounds::OwnBounds;
use crate::section::Section;
use outcome::Expect;
use property_judge::Comparison;

/// What a word of memory must be at the start and after each choice.
#[derive(Clone, Copy)]
pub struct Always {
    /// The word's address, a multiple of 4. A word that no load reads counts as 0.
    pub word: u32,
    /// How the word is compared with the number.
    pub comparison: Comparison,
    /// The number, as a word: -1 is 0xffffffff.
    pub number: u32,
}

/// What is asked of every schedule of a program.
#[derive(Clone, Copy)]
pub struct Question {
    /// The rule that each run has to keep (without one no hart may fault), and whether each world
    /// must have a way out: a list of choices from it to a world in which no hart runs.
    pub expect: Expect,
    /// What a word of memory must be, if that is asked.
    pub always: Option<Always>,
    /// The section of code in which no two harts may stand at once, if that is asked.
    pub never_both: Option<Section>,
    /// Whether the bounds on harts' own steps are told where no schedule fails or hangs.
    pub bounds: OwnBounds,
    /// Whether store-conditionals are refused too that could succeed.
    pub refusals: ScRefusals,
    /// The most places that are looked at.
    pub most: usize,
}
