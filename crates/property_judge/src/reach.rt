//! Where a step may break a property.
ghost use Rattle.std.specs.Prelude.{◌≡◌, ◌<◌, ◌^◌};
ghost use Rattle.hart_step.specs.Hart.{hart_of};
ghost use Rattle.property_judge.specs.Reach.{is_out_of_reach, nowhere, reach_of, widened};

use crate::judged::Judged;
use crate::property::Property;
use hart_step::Hart;

/// The addresses from the first to the last: a step that leaves its hart elsewhere keeps each of
/// some properties.
#[derive(Clone, Copy)]
pub(crate) struct Reach {
    /// The first address.
    pub(crate) first: u32,
    /// The last one.
    pub(crate) last: u32,
}

// A reach with that of one property more. Whatever a step does, it may break a word's.
fn widened(reach: Reach, property: Property) -> Reach
    ensures { result ≡ widened reach property }
{
    match property {
        Property::Always { .. } => Reach {
            first: 0,
            last: u32::MAX,
        },
        Property::NeverBoth { from, to } => Reach {
            first: if from < reach.first {
                from
            } else {
                reach.first
            },
            last: if reach.last < to { to } else { reach.last },
        },
    }
}

/// The reach of some properties.
pub(crate) fn reach_of(judged: &[Judged]) -> Reach
    ensures { result ≡ reach_of judged.now }
{
    let mut reach = Reach {
        first: u32::MAX,
        last: 0,
    };
    'properties: for each in judged {
        reach = widened(reach, each.property);
    }
    reach
}

/// Whether a hart stands elsewhere.
#[inline]
pub(crate) fn is_out_of_reach(reach: Reach, hart: &Hart) -> bool
    ensures elsewhere { result ≡ is_out_of_reach reach (hart_of hart.now) }
    ensures word { hart.now.pc < 2 ^ 32 }
{
    hart.pc < reach.first || reach.last < hart.pc
}
