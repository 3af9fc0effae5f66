//! The limits of the code are those of the definitions.

ghost use Rattle.std.specs.Prelude.{◌≡◌};
ghost use Rattle.sched_draw.specs.Limits.{most_depth, most_mean, most_one_in};
ghost use Rattle.sched_draw.specs.declared.chance.TheConstants.{MOST_ONE_IN};
ghost use Rattle.sched_draw.specs.declared.order.TheConstants.{MOST_DEPTH, MOST_MEAN};

/// The least chance is one in 2^16, the greatest mean length of bursts 2^31, and the greatest depth
/// 1000.
pub fn limits_of_draws()
    ensures chance { (MOST_ONE_IN ≡ most_one_in) × (most_one_in ≡ 65_536) }
    ensures mean { (MOST_MEAN ≡ most_mean) × (most_mean ≡ 2_147_483_648) }
    ensures depth { (MOST_DEPTH ≡ most_depth) × (most_depth ≡ 1_000) }
{}
