ghost use Rattle.std.specs.Prelude.{◌≡◌, ◌↔◌, Some};
ghost use Rattle.dsv_outside.specs.Causes.{HasCause};
ghost use Rattle.dsv_outside.specs.Calls.{IsDue, no_calls, after_call};
ghost use Rattle.dsv_outside.specs.Keepers.{kept_after};
ghost use Rattle.dsv_outside.specs.Sinks.{is_failed_put};

use crate::calls::Calls;
use crate::keeper::Keeper;
use crate::put::Put;
use crate::sure_keeper::SureKeeper;
use dsv_base::{Bytes, Rev};
use std::marker::Model;

/// A keeper in memory, some of whose calls fail. Contracts see the numbers with their texts that it
/// has kept, and the calls: the numbers of those that fail, the number of the next, and the count of
/// faults.
#[derive(Debug, Drop)]
pub struct MemKeeper {
    keeper: SureKeeper,
    calls: Calls,
}

impl Model for MemKeeper {
    ghost use Rattle.dsv_outside.specs.KeeperStates.{MemKeeperState};

    ghost Value = { MemKeeperState };

    ghost view = { λ k. record { kept = k.keeper; calls = k.calls } };
}

impl MemKeeper {
    /// A keeper that has kept these texts under these numbers, whose calls with the numbers in
    /// `failing` fail, counted from 0.
    pub fn new(kept: Vec<(Rev, Bytes)>, failing: Vec<u64>) -> MemKeeper
        ensures { result ≡ record { kept = kept.items; calls = no_calls failing.items } }
    {
        MemKeeper {
            keeper: SureKeeper::new(kept),
            calls: Calls::new(failing),
        }
    }

    /// The numbers with their texts kept so far, in order.
    pub fn kept(&self) -> &[(Rev, Bytes)]
        ensures { result.now ≡ self.now.kept }
    {
        self.keeper.kept()
    }
}

impl Keeper for MemKeeper {
    ghost kept = { λ k. Some k.kept };

    ghost faults = { λ k. k.calls.faults };

    /// Appends the pair. The calls whose numbers were given fail, and no others.
    fn keep(&mut self, number: Rev, text: &[u8]) -> Put
        ensures pairs { Some self.new.kept ≡ kept_after result number text.now
            (Some self.old.kept) }
        ensures cause { HasCause self.old.calls.faults self.new.calls.faults
            (is_failed_put result) }
        ensures fails { (result ≡ Put.Failed) ↔ IsDue self.old.calls }
        ensures calls { self.new.calls ≡ after_call (is_failed_put result) self.old.calls }
    {
        if self.calls.begin() {
            self.calls.fail();
            return Put::Failed;
        }
        self.keeper.keep(number, text)
    }
}
