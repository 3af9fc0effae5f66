//! The words that harts have reserved at one moment.
ghost use Rattle.trace_steps.specs.Known.{Knows};
ghost use Rattle.trace_steps.specs.Latest.{latest_words};
ghost use Rattle.hart_reservations.specs.Reserve.{marks};

use crate::latest::Latest;
use hart_reservations::Reserve;

/// The words that harts have reserved at one moment.
#[derive(Clone, Copy, Drop)]
pub struct Held {
    latest: Latest,
    reserve: Reserve,
    ghost known: { Knows (latest_words latest) (marks reserve) },
}

impl Held {
    ghost use Rattle.std.specs.Prelude.{◌≡◌, ◌<◌};
    ghost use Rattle.hart_reservations.specs.Limit.{most_harts};
    ghost use Rattle.hart_reservations.specs.Marks.{Marks};
    ghost use Rattle.hart_reservations.specs.Reserve.{marks};
    ghost use Rattle.trace_steps.specs.Known.{Knows};
    ghost use Rattle.trace_steps.specs.Latest.{latest_words};

    /// These reservations, with the words that were reserved last.
    pub(crate) fn new(latest: &Latest, reserve: &Reserve) -> Held
        requires { Knows (latest_words latest.now) (marks reserve.now) }
        ensures { marks result.reserve ≡ marks reserve.now }
    {
        Held {
            latest: *latest,
            reserve: *reserve,
        }
    }

    /// The address of the word that a hart has reserved.
    pub(crate) fn word(&self, hart: usize) -> Option<u32>
        requires { hart < most_harts }
        ensures { result ≡ marks self.now.reserve hart }
    {
        self.latest.reserved(&self.reserve, hart)
    }
}
