//! Law: the number of harts.
ghost use Rattle.std.specs.Prelude.{◌≡◌};
ghost use Rattle.hart_reservations.specs.Limit.{most_harts};
ghost use Rattle.hart_reservations.specs.declared.reserve.TheConstants.{MAX_HARTS};

/// A machine has at most 32 harts: the code's limit equals that of the definitions.
pub fn thirty_two_harts_at_most()
    ensures limit { MAX_HARTS ≡ most_harts }
    ensures numeral { most_harts ≡ 32 }
{}
