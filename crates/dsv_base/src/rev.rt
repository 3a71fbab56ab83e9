ghost use Rattle.std.specs.Prelude.{◌≡◌, ◌≤◌};
ghost use Rattle.std.specs.Option.{SomeIff};

use std::marker::Model;

/// The number of a revision: 0 to 2,000,000,000. Contracts see it as a number.
#[derive(Clone, Copy, Debug, PartialEq, Eq, PartialOrd, Ord)]
pub struct Rev {
    number: u32,
}

impl Model for Rev {
    ghost use Rattle.std.specs.Prelude.{ℕ, ◌≤◌};

    ghost Value = { ℕ };

    ghost view = { λ r. r.number };

    ghost invariant = { λ r. r.number ≤ 2000000000 };

    ghost inverse = { λ n. record { number = n } };
}

impl Rev {
    /// The greatest number of a revision.
    pub const MOST: u32 = 2_000_000_000;

    /// The revision of this number, or `None` above 2,000,000,000.
    pub fn of(number: u32) -> Option<Rev>
        ensures { SomeIff result (number ≤ 2000000000) number }
    {
        if number <= Rev::MOST {
            Some(Rev { number })
        } else {
            None
        }
    }

    /// Its number.
    pub fn get(&self) -> u32
        ensures value { result ≡ self.now }
        ensures bound { self.now ≤ 2000000000 }
    {
        self.number
    }
}
