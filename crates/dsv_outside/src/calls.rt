ghost use Rattle.std.specs.Prelude.{◌≡◌, ◌↔◌, IsTrue, true, false};
ghost use Rattle.dsv_outside.specs.Causes.{next_count, HasCause};
ghost use Rattle.dsv_outside.specs.Calls.{no_calls, IsDue, after_call};

use std::marker::Model;

/// The calls of an object in memory: which of them fail, the number of the next one, and how many
/// have failed. Both counts stand still at their last value.
#[derive(Debug, Drop)]
pub(crate) struct Calls {
    failing: Vec<u64>,
    next: u64,
    faults: u64,
}

impl Model for Calls {
    ghost use Rattle.dsv_outside.specs.Calls.{CallState};

    ghost Value = { CallState };

    ghost view = { λ c. record { failing = c.failing.items; next = c.next; faults = c.faults } };
}

impl Calls {
    /// No calls so far; those with these numbers are to fail, counted from 0.
    pub(crate) fn new(failing: Vec<u64>) -> Calls
        ensures { result ≡ no_calls failing.items }
    {
        Calls {
            failing,
            next: 0,
            faults: 0,
        }
    }

    /// Counts a call, and says whether it is one that fails.
    pub(crate) fn begin(&mut self) -> bool
        ensures due { IsTrue result ↔ IsDue self.old }
        ensures counted { self.new ≡ after_call false self.old }
    {
        let is_due = self.failing.contains(&self.next);
        self.next = self.next.saturating_add(1);
        is_due
    }

    /// Counts a fault of the call that was begun.
    pub(crate) fn fail(&mut self)
        ensures counted { self.new ≡ record self.old { faults = next_count self.old.faults } }
        ensures cause { HasCause self.old.faults self.new.faults true }
    {
        self.faults = self.faults.saturating_add(1);
    }

    /// How many calls have failed.
    pub(crate) fn faults(&self) -> u64
        ensures { result ≡ self.now.faults }
    {
        self.faults
    }
}
