//! The reservations of all harts, from the banks' marks and the words that the harts' last LRs
//! named.
ghost use Rattle.std.specs.Prelude.{◌≡◌, ℕ, ◌<◌, ◌≤◌, length};
ghost use Rattle.hart_reservations.specs.Limit.{most_harts};
ghost use Rattle.hart_reservations.specs.Marks.{mark_at};
ghost use Rattle.hart_reservations.specs.Reserve.{marks};
ghost use Rattle.bank_laws.specs.Banks.{joined_mark};
ghost use Rattle.bank_laws.specs.Merged.{bank_of, most_banks};
ghost use Rattle.test_banked.specs.Joined.{banks_with, with_mark_if};

use hart_reservations::Reserve;

// Number of banks.
const BANKS: u32 = 16;

/// The word that each hart has reserved, from the marks of banks 0 to 15 and the word that each
/// hart's last load-reserved named, if no store-conditional came after it. The reservation is held
/// while that word's bank has the hart's mark on the word.
pub fn joined(banks: &[Reserve], named: &[Option<u32>]) -> Reserve
    requires banks { length banks.now ≡ most_banks }
    requires harts { length named.now ≤ most_harts }
    ensures { (h : ℕ) → marks result h ≡ joined_mark bank_of (banks_with banks.now) h (mark_at named.now h) }
{
    let mut reserve = Reserve::new();
    'harts: for (hart, word) in named.iter().enumerate() {
        let standing = standing(banks, hart, *word);
        set_if(&mut reserve, hart, standing);
    }
    reserve
}

// The word that a hart's last load-reserved named, if that word's bank has its mark on it.
fn standing(banks: &[Reserve], hart: usize, named: Option<u32>) -> Option<u32>
    requires banks { length banks.now ≡ most_banks }
    requires hart { hart < most_harts }
    ensures { result ≡ joined_mark bank_of (banks_with banks.now) hart named }
{
    let word = named?;
    let bank = &banks[(word / 4 % BANKS) as usize];
    if bank.holds(hart, word) {
        Some(word)
    } else {
        None
    }
}

// Reserves a word for a hart, if there is one.
fn set_if(reserve: &mut Reserve, hart: usize, word: Option<u32>)
    requires { hart < most_harts }
    ensures { marks reserve.new ≡ with_mark_if (marks reserve.old) hart word }
{
    if let Some(word) = word {
        reserve.set(hart, word);
    }
}
