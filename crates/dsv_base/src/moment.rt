ghost use Rattle.std.specs.Prelude.{◌≡◌, ◌≤◌};
ghost use Rattle.std.specs.Option.{SomeIff};

use std::marker::Model;

/// A moment: microseconds since the start of 1970, up to the last of the year 9999. Contracts see
/// it as that number.
#[derive(Clone, Copy, Debug, PartialEq, Eq, PartialOrd, Ord)]
pub struct Moment {
    micros: u64,
}

impl Model for Moment {
    ghost use Rattle.std.specs.Prelude.{ℕ, ◌≤◌};

    ghost Value = { ℕ };

    ghost view = { λ m. m.micros };

    ghost invariant = { λ m. m.micros ≤ 253402300799999999 };

    ghost inverse = { λ n. record { micros = n } };
}

impl Moment {
    /// The last microsecond of the year 9999.
    pub const MOST: u64 = 253_402_300_799_999_999;

    /// The moment of this number, or `None` past the year 9999.
    pub fn of(micros: u64) -> Option<Moment>
        ensures { SomeIff result (micros ≤ 253402300799999999) micros }
    {
        if micros <= Moment::MOST {
            Some(Moment { micros })
        } else {
            None
        }
    }

    /// Its microseconds since the start of 1970.
    pub fn get(&self) -> u64
        ensures value { result ≡ self.now }
        ensures bound { self.now ≤ 253402300799999999 }
    {
        self.micros
    }
}
