ghost use Rattle.std.specs.Prelude.{◌≡◌, [], ◌∷◌};
ghost use Rattle.dsv_outside.specs.Causes.{next_count};
ghost use Rattle.dsv_outside.specs.Clocks.{Reads, moment_at, told_readings};

use crate::clock::Clock;
use dsv_base::Moment;
use std::marker::Model;

/// A clock in memory, which answers the moments of a list. Contracts see these moments and the
/// number of the next reading, which stands still at its last value.
#[derive(Debug, Drop)]
pub struct MemClock {
    moments: Vec<Moment>,
    next: usize,
}

impl Model for MemClock {
    ghost use Rattle.dsv_outside.specs.ClockStates.{MemClockState};

    ghost Value = { MemClockState };

    ghost view = { λ c. record { moments = c.moments.items; next = c.next } };
}

impl MemClock {
    /// A clock of these moments, which answers them in turn. Past the list it answers the last one
    /// again, or 0 where the list is empty.
    pub fn new(moments: Vec<Moment>) -> MemClock
        ensures { result ≡ record { moments = moments.items; next = 0 } }
    {
        MemClock { moments, next: 0 }
    }
}

impl Clock for MemClock {
    ghost readings = { λ c. told_readings c.moments c.next };

    /// The next moment of the list.
    #[tactic(auto, using(crate::proofs::Clocks::reads_next))]
    fn now(&mut self) -> Moment
        ensures reading { Reads (told_readings self.old.moments self.old.next)
            (told_readings self.new.moments self.new.next) (result ∷ []) }
        ensures exact { result ≡ moment_at self.old.moments self.old.next }
        ensures next { self.new ≡ record self.old { next = next_count self.old.next } }
    {
        let moment = moment_at(self.moments.as_slice(), self.next);
        self.next = self.next.saturating_add(1);
        moment
    }
}

/// The moment of this number: past the list the last one, and 0 where the list is empty.
fn moment_at(moments: &[Moment], number: usize) -> Moment
    ensures { result ≡ moment_at moments.now number }
{
    let last = moments.len().saturating_sub(1);
    match moments.get(number.min(last)) {
        Some(moment) => *moment,
        None => Moment::of(0).unwrap(),
    }
}
