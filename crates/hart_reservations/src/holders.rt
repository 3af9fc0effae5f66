//! The harts that may have a reservation, so that a store need not check each hart.
ghost use Rattle.std.specs.Prelude.{◌≡◌};
ghost use Rattle.hart_reservations.specs.Holders.{holders_with, has_other, left_by};

/// The harts that may have a reservation.
#[derive(Clone, Copy, Drop)]
pub enum Holders {
    /// No hart has one.
    Nobody,
    /// At most this hart has one.
    Only(usize),
    /// Any hart may have one.
    Several,
}

impl Holders {
    /// The same with one more hart that may have a reservation.
    pub fn with(self, hart: usize) -> Holders
        ensures { result ≡ holders_with self hart }
    {
        match self {
            Holders::Nobody => Holders::Only(hart),
            Holders::Only(holder) if holder == hart => self,
            _ => Holders::Several,
        }
    }

    /// The same after a hart's reservation has ended.
    pub fn without(self, hart: usize) -> Holders
        ensures { result ≡ left_by self hart }
    {
        match self {
            Holders::Only(holder) if holder == hart => Holders::Nobody,
            _ => self,
        }
    }

    /// Whether a hart other than this one may have a reservation.
    pub fn has_other(self, hart: usize) -> bool
        ensures { result ≡ has_other self hart }
    {
        match self {
            Holders::Nobody => false,
            Holders::Only(holder) => holder != hart,
            Holders::Several => true,
        }
    }
}
