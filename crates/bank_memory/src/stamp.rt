//! Stamps: they order the steps of all harts.
ghost use Rattle.std.specs.Prelude.{◌≡◌, ℕ, ◌-◌, ◌^◌, List, [], ◌∷◌, Some, None};
ghost use Rattle.bank_memory.specs.Stamps.{greatest, next_stamp, IsGreatest};

// The greatest of a stamp and a list of stamps.
fn greatest(own: u64, banks: &[u64]) -> u64
    ensures { result ≡ greatest own banks.now }
{
    let mut greatest = own;
    'banks: for stamp in banks {
        if greatest < *stamp {
            greatest = *stamp;
        }
    }
    greatest
}

/// The stamp of a step, from the last stamps of its hart and of the banks that it touches: one more
/// than the greatest of them. `None` if that is `u64::MAX` or above.
pub fn next_stamp(own: u64, banks: &[u64]) -> Option<u64>
    ensures { result ≡ next_stamp own banks.now }
{
    let last = greatest(own, banks);
    if last >= u64::MAX - 1 {
        return None;
    }
    Some(last + 1)
}

/// The greatest of stamps is one of them, and none of them is greater.
pub fn greatest_is_of_all()
    ensures { (stamp : ℕ) (stamps : List ℕ) → IsGreatest (stamp ∷ stamps) (greatest stamp stamps) }
{}

/// Examples: the greatest stamp decides, whether the hart's or a bank's; the last stamp is
/// `u64::MAX - 1`.
pub fn stamps_in_examples()
    ensures greatest_of_all { next_stamp 3 (5 ∷ 1 ∷ []) ≡ Some 6 }
    ensures own_is_greatest { next_stamp 7 (5 ∷ 1 ∷ []) ≡ Some 8 }
    ensures first { next_stamp 0 [] ≡ Some 1 }
    ensures last { next_stamp (2 ^ 64 - 3) [] ≡ Some (2 ^ 64 - 2) }
    ensures exhausted { next_stamp (2 ^ 64 - 2) [] ≡ None }
{}
