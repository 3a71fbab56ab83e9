ghost use Rattle.std.specs.Prelude.{◌≡◌};

use crate::answer::Answer;
use crate::call::Call;
use crate::hub::Hub;
use crate::turn::Turn;
use dsv_outside::Keeper;
use std::marker::Model;

/// A hub that one connection has for itself: its pass is 0. Contracts see it as the hub.
#[derive(Drop)]
pub struct Solo<K: Keeper> {
    hub: Hub<K>,
}

impl<K: Keeper> Model for Solo<K> {
    ghost use Rattle.dav_machine.specs.Hubs.{HubState};

    ghost Value = { HubState K };

    ghost view = { λ s. s.hub };
}

impl<K: Keeper> Solo<K> {
    /// A turn over this hub.
    pub fn new(hub: Hub<K>) -> Solo<K>
        ensures { result ≡ hub }
    {
        Solo { hub }
    }

    /// Gives the hub back.
    pub fn end(self) -> Hub<K>
        ensures { result ≡ self }
    {
        let Solo { hub } = self;
        hub
    }
}

impl<K: Keeper> Turn for Solo<K> {
    ghost use Rattle.dav_machine.specs.Origins.{alone};

    ghost opening = { λ s. s.opening };

    ghost pass = { λ _. 0 };

    ghost origin = { λ s. alone s.opening (K.faults s.first_keeper) (K.kept s.first_keeper) };

    ghost front = { λ s. s.history };

    fn pass(&self) -> u64 {
        0
    }

    #[tactic(auto, using(crate::proofs::Turning::acted_turned))]
    fn act(&mut self, call: &Call) -> Answer {
        self.hub.act(call)
    }
}
