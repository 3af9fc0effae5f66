//! Laws: the order and the shift of signed words, over the integers.
ghost use Rattle.std.specs.Prelude.{◌≡◌, ℕ, ◌<◌, ◌^◌, int_lt};
ghost use Rattle.isa_table.specs.Signed.{signed_of};
ghost use Rattle.hart_step.specs.Values.{signed_lt, arithmetic_shift};
ghost use Rattle.hart_step.specs.Numbers.{IsFloor};

/// The order of signed words is the order of the integers that they stand for.
#[tactic(auto, using(crate::proofs::SignedLemmas::signed_lt_is))]
pub fn signed_order_is_that_of_integers()
    ensures { (a b : ℕ) → a < 2 ^ 32 → b < 2 ^ 32
        → signed_lt a b ≡ int_lt (signed_of a) (signed_of b) }
{}

/// An arithmetic right shift gives a word; its integer is the floor of the quotient by the power of
/// 2.
#[tactic(auto, using(crate::proofs::SignedLemmas::shift_is))]
pub fn arithmetic_shift_is_floor_division()
    ensures { (a places : ℕ) → a < 2 ^ 32 → places < 32 → (arithmetic_shift a places < 2 ^ 32)
        × IsFloor (signed_of (arithmetic_shift a places)) (signed_of a) (2 ^ places) }
{}
