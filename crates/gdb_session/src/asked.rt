//! The moves that requests ask for.
ghost use Rattle.std.specs.Prelude.{◌≡◌};
ghost use Rattle.gdb_session.specs.Moves.{move_asked, no_range, stepping_hart, whose_hits};
ghost use Rattle.gdb_session.specs.Talk.{talk_of};

use crate::movement::Move;
use crate::selected::Selected;
use crate::talk::Talk;
use gdb_moves::{AddressRange, Whose};
use gdb_requests::Plain;
use std::alloc::Allocator;

/// The range that any step leaves.
pub fn no_range() -> AddressRange
    ensures { result ≡ no_range }
{
    AddressRange { from: 0, to: 0 }
}

// Whose hits count on the way back.
fn whose_hits(moves: Selected) -> Whose
    ensures { result ≡ whose_hits moves }
{
    match moves {
        Selected::One(hart) => Whose::One(hart),
        _ => Whose::All,
    }
}

impl<A: Allocator + Copy> Talk<A> {
    // The hart that steps.
    fn stepping_hart(&self) -> u32
        ensures { result ≡ stepping_hart (talk_of self.now) }
    {
        match self.moves {
            Selected::One(hart) => hart,
            _ => self.hart_read(),
        }
    }

    /// The move that a request asks for; `None` if it asks for none.
    #[tactic(auto, unfolding(crate::specs::Moves::move_asked))]
    pub fn move_asked(&self, plain: Plain) -> Option<Move>
        ensures { result ≡ move_asked (talk_of self.now) plain }
    {
        match plain {
            Plain::Continue => Some(Move::Ahead(Whose::All)),
            Plain::Step => Some(Move::Step {
                hart: self.stepping_hart(),
                range: no_range(),
            }),
            Plain::BackContinue => Some(Move::Back(whose_hits(self.moves))),
            Plain::BackStep => Some(Move::StepBack {
                hart: self.stepping_hart(),
                whose: whose_hits(self.moves),
            }),
            _ => None,
        }
    }
}
